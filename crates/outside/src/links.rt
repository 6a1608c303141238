//! The texts of symbolic links.
ghost use Rattle.std.specs.Prelude.{◌≡◌, ◌⊎◌, length, true, Some, None, Ok, Err, IfOk, IfErr, IsErrOf, IsOk, OnOk, OnErr};
ghost use Rattle.std.specs.String.{string_bytes};
ghost use Rattle.path_text.specs.Escape.{escape, good_len, unescaped};
ghost use Rattle.outside.specs.Links.{link_refusal, link_reading};

use path_text::{OutOfMemory, good_len, put_escaped_bytes, tells_zero, told_len, unescaped};
use std::alloc::{AllocError, Global};
use std::marker::Model;
use thiserror::Error;

/// The most bytes that the text of a link has.
pub const MAX_LINK: usize = 4095;

/// Why a text is not one of a link, or why no text of a link could be made of it.
#[derive(Clone, Copy, Debug, Drop, PartialEq, Eq, Error)]
pub enum LinkTextError {
    /// The text has no byte.
    #[error("the text of a link is not empty")]
    Empty,
    /// The text has more than 4,095 bytes.
    #[error("the text of the link has more than 4095 bytes")]
    TooLong,
    /// The text holds the byte 0.
    #[error("the text of the link holds the byte 0")]
    Nul,
    /// The byte at this index is raw and must be escaped, or is a backslash that begins no escape.
    #[error("the byte at {0} is no text of a link")]
    BadEscape(usize),
    /// The call is out of memory.
    #[error("out of memory")]
    OutOfMemory,
}

impl From<AllocError> for LinkTextError {
    ghost use Rattle.std.specs.Prelude.{◌≡◌};
    ghost use Rattle.outside.specs.declared.links.LinkTextError.TheVariants.{OutOfMemory};

    ghost from_gives = { λ _ e. e ≡ OutOfMemory };

    fn from(_: AllocError) -> Self {
        LinkTextError::OutOfMemory
    }
}

/// The text of a symbolic link: UTF-8, at least one byte and at most 4,095, none of them 0. A contract sees it as its bytes.
#[derive(Debug, Drop)]
pub struct LinkText {
    text: String,
}

impl Model for LinkText {
    ghost use Rattle.std.specs.Prelude.{◌≡◌, List, ℕ, None};
    ghost use Rattle.std.specs.String.{string_bytes};
    ghost use Rattle.outside.specs.Links.{link_refusal};

    ghost Value = { List ℕ };

    ghost view = { λ l. string_bytes l.text };

    ghost invariant = { λ l. link_refusal (string_bytes l.text) ≡ None };
}

impl LinkText {
    /// Makes a link's text of a text. It checks the text before it takes memory.
    pub fn parse(alloc: Global, text: &str) -> Result<LinkText, LinkTextError>
        ensures ok { IfOk result (λ link. link ≡ text.now) }
        ensures valid { OnOk result (link_refusal text.now ≡ None) }
        ensures refused { IfErr result (λ e. (link_refusal text.now ≡ Some e) ⊎ ((e ≡ LinkTextError.OutOfMemory) × (link_refusal text.now ≡ None))) }
    {
        if let Some(fault) = refusal(text.as_bytes()) {
            return Err(fault);
        }
        let text = String::from_str(alloc, text)?;
        Ok(LinkText { text })
    }

    /// The text, which is UTF-8.
    pub fn text(&self) -> &str
        ensures text { result.now ≡ self.now }
        ensures valid { link_refusal self.now ≡ None }
    {
        self.text.as_str()
    }

    /// Copies the text.
    pub fn copy(&self) -> Result<LinkText, OutOfMemory>
        ensures { IfOk result (λ link. link ≡ self.now) }
    {
        let text = self.text.clone()?;
        Ok(LinkText { text })
    }

    /// Writes the text in printable text, as [`path_text::escape`] writes a path.
    pub fn escape(&self, alloc: Global) -> Result<Vec<u8>, OutOfMemory>
        ensures { IfOk result (λ written. written.items ≡ escape self.now) }
    {
        let mut written = Vec::new(alloc);
        put_escaped_bytes(&mut written, self.text.as_bytes())?;
        Ok(written)
    }

    /// Reads the link's text for which [`LinkText::escape`] writes this text. It checks the text before it takes memory.
    pub fn unescape(alloc: Global, written: &str) -> Result<LinkText, LinkTextError>
        ensures ok { IfOk result (λ link. link_reading written.now ≡ Ok link) }
        ensures refused { IfErr result (λ e. (link_reading written.now ≡ Err e) ⊎ (e ≡ LinkTextError.OutOfMemory)) }
        ensures memory { IsErrOf result LinkTextError.OutOfMemory → IsOk (link_reading written.now) }
    {
        let good = good_len(written.as_bytes());
        if good < written.len() {
            return Err(LinkTextError::BadEscape(good));
        }
        if let Some(fault) = told_refusal(written.as_bytes()) {
            return Err(fault);
        }
        let text = unescaped(alloc, written)?;
        Ok(LinkText { text })
    }

    /// Makes a link's text of a text that is known to be one. It does not check the text again.
    pub fn of_text(alloc: Global, text: &str) -> Result<LinkText, OutOfMemory>
        requires { link_refusal text.now ≡ None }
        ensures { IfOk result (λ link. link ≡ text.now) }
    {
        let text = String::from_str(alloc, text)?;
        Ok(LinkText { text })
    }
}

// Why the bytes of a text are not a link's text; `None` if they are one.
fn refusal(text: &[u8]) -> Option<LinkTextError>
    ensures { result ≡ link_refusal text.now }
{
    if text.is_empty() {
        return Some(LinkTextError::Empty);
    }
    if text.len() > MAX_LINK {
        return Some(LinkTextError::TooLong);
    }
    if text.contains(&0) {
        return Some(LinkTextError::Nul);
    }
    None
}

// Why the bytes that a printable text without a bad byte means are not a link's text; `None` if they are one.
fn told_refusal(written: &[u8]) -> Option<LinkTextError>
    requires { good_len written.now ≡ length written.now }
    ensures { result ≡ link_refusal (unescaped written.now) }
{
    let len = told_len(written);
    if len == 0 {
        return Some(LinkTextError::Empty);
    }
    if len > MAX_LINK {
        return Some(LinkTextError::TooLong);
    }
    if tells_zero(written) {
        return Some(LinkTextError::Nul);
    }
    None
}

impl Clone for LinkText {
    ghost use Rattle.std.specs.Prelude.{◌≡◌};

    ghost is_clone = { λ l m. m ≡ l };

    fn clone(&self) -> Result<LinkText, AllocError> {
        Ok(LinkText {
            text: self.text.clone()?,
        })
    }
}

impl PartialEq for LinkText {
    ghost use Rattle.std.specs.Cmp.Lexicographic.{pointwise, nat_list_eq_equiv};
    ghost use Rattle.std.specs.Cmp.{partial_equiv_from_equiv};
    ghost use Rattle.std.specs.Prelude.{nat_eq};

    ghost eq = { pointwise nat_eq };

    ghost laws = { partial_equiv_from_equiv nat_list_eq_equiv };

    fn eq(&self, other: &LinkText) -> bool {
        self.text.as_str() == other.text.as_str()
    }
}

impl Eq for LinkText {
    ghost use Rattle.std.specs.Cmp.Lexicographic.{nat_list_eq_equiv};

    ghost laws = { nat_list_eq_equiv };
}
