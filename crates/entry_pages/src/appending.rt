//! Copies the heads of entries after those of others, as they are kept.
ghost use Rattle.std.specs.Prelude.{◌≡◌, ◌+◌, ◌^◌, ◌<◌, ◌≤◌, ◌++◌, length, map, All};
ghost use Rattle.std.specs.Vec.{vec_len, vec_capacity};

/// Puts where some pages begin after where others do, each higher by `base`. There is room.
pub(crate) fn put_shifted(starts: &mut Vec<usize>, base: usize, more: &[usize])
    requires room { vec_len starts.old + length more.now ≤ vec_capacity starts.old }
    requires fits { All (λ start. base + start < 2 ^ 64) more.now }
    ensures { starts.new.items ≡ starts.old.items ++ map (λ start. base + start) more.now }
{
    for start in more {
        starts.push_reserved(base + *start);
    }
}

/// Adds copies of items for which there is room.
#[inline(always)]
pub(crate) fn extend_reserved<T: Copy>(items: &mut Vec<T>, more: &[T])
    requires { vec_len items.old + length more.now ≤ vec_capacity items.old }
    ensures { items.new.items ≡ items.old.items ++ more.now }
{
    let Ok(()) = items.extend_from_slice(more) else {
        unreachable!()
    };
}
