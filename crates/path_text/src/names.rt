//! The names of a path: the last one, their number, and those after the names of another path.
ghost use Rattle.std.specs.Prelude.{◌≡◌, ◌≤◌, [], ◌∷◌, ◌++◌, length, drop, IsTrue, IfSome, IfNone, OnSome, nat_eq, false, true};
ghost use Rattle.std.specs.List.{before_last, after_last, count_by, list_any, starts_with};
ghost use Rattle.path_text.specs.Path.{is_slash};
ghost use Rattle.path_text.specs.Order.{front, is_within};

/// The text before the last slash, and the text after it.
pub fn around_last_slash(text: &str) -> Option<(&str, &str)>
    ensures found { IfSome result (λ parts. (parts.0.now ≡ before_last is_slash text.now) × (parts.1.now ≡ after_last is_slash text.now)
        × (text.now ≡ parts.0.now ++ 47 ∷ parts.1.now) × (list_any is_slash parts.1.now ≡ false)) }
    ensures none { IfNone result ((before_last is_slash text.now ≡ []) × (after_last is_slash text.now ≡ text.now)
        × (list_any is_slash text.now ≡ false)) }
{
    text.rsplit_once('/')
}

/// Counts the slashes.
pub fn slashes(bytes: &[u8]) -> usize
    ensures count { result ≡ count_by is_slash bytes.now }
    ensures within { result ≤ length bytes.now }
{
    bytes.iter().filter(|b| **b == b'/').count()
}

/// The text after the front of the path `top`, if the text begins with that front.
pub fn behind_front<'a>(text: &'a str, top: &str) -> Option<&'a str>
    ensures found { IfSome result (λ names. names.now ≡ drop (length (front top.now)) text.now) }
    ensures begins { OnSome result (starts_with nat_eq text.now (front top.now) ≡ true) }
    ensures none { IfNone result (starts_with nat_eq text.now (front top.now) ≡ false) }
{
    match behind(text, top) {
        Some(names) if top.len() == 1 => Some(names),
        Some(names) => names.strip_prefix('/'),
        None => None,
    }
}

fn behind<'a>(text: &'a str, top: &str) -> Option<&'a str>
    ensures found { IfSome result (λ rest. text.now ≡ top.now ++ rest.now) }
    ensures none { IfNone result (starts_with nat_eq text.now (front top.now) ≡ false) }
{
    text.strip_prefix(top)
}

/// The names after the front of `top`. The path is `top` or is under it.
pub fn names_below<'a>(path: &'a str, top: &str) -> &'a str
    requires { IsTrue (is_within path.now top.now) }
    ensures { result.now ≡ drop (length (front top.now)) path.now }
{
    match behind_front(path, top) {
        Some(names) => names,
        None => "",
    }
}
