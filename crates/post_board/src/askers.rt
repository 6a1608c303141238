//! Which ranks ask each rank of a plain board, so that one test says that nobody asks.
ghost use Rattle.std.specs.Prelude.{◌≡◌, ◌^◌, ◌<◌, ◌==◌, length, replicate, slice_set, slice_index_or, bit_or, bit_xor, IfOk};

use path_text::OutOfMemory;
use std::alloc::Global;

/// For each rank a mask with a bit for each rank whose mailbox asks it.
#[derive(Drop)]
pub struct Askers {
    pub(crate) masks: Vec<u64>,
}

impl Askers {
    /// Nobody asks any of `n` ranks.
    pub(crate) fn none(alloc: Global, n: u32) -> Result<Askers, OutOfMemory>
        ensures { IfOk result (λ askers. askers.masks.items ≡ replicate n 0) }
    {
        let mut masks = Vec::new(alloc);
        masks.resize(n as usize, 0)?;
        Ok(Askers { masks })
    }

    /// Whether nobody asks the rank `of`.
    pub(crate) fn nobody_asks(&self, of: u32) -> bool
        requires { of < length self.now.masks.items }
        ensures { result ≡ (slice_index_or self.now.masks.items of 0 == 0) }
    {
        self.masks[of as usize] == 0
    }

    /// The rank `asker` asks the rank `of`.
    pub(crate) fn add(&mut self, of: u32, asker: u32)
        requires of { of < length self.old.masks.items }
        requires asker { asker < 64 }
        ensures { self.new.masks.items ≡ slice_set self.old.masks.items of (bit_or (slice_index_or self.old.masks.items of 0) (2 ^ asker)) }
    {
        self.masks[of as usize] |= 1 << asker;
    }

    /// The rank `asker`, which asked the rank `of`, no longer asks it.
    pub(crate) fn take_away(&mut self, of: u32, asker: u32)
        requires of { of < length self.old.masks.items }
        requires asker { asker < 64 }
        ensures { self.new.masks.items ≡ slice_set self.old.masks.items of (bit_xor (slice_index_or self.old.masks.items of 0) (2 ^ asker)) }
    {
        self.masks[of as usize] ^= 1 << asker;
    }
}
