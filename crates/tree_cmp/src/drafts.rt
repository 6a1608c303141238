//! Rows, as far as they are known before files are read.
ghost use Rattle.std.specs.Prelude.{◌≡◌, ◌||◌, ◌+◌, ◌<◌, true, is_some, None};
ghost use Rattle.flat_list.specs.Prelude.{refusal, is_of, is_kind};
ghost use Rattle.tree_cmp.specs.Rows.{exist_of, two_of, are_files, are_links, kinds, sizes, texts};
ghost use Rattle.tree_cmp.specs.Private.Items.{item_stat, to_read, content_before, draft_of};
ghost use Rattle.tree_cmp.specs.Private.Steps.{path_of};

use crate::items::Item;
use crate::reading::Outcome;
use crate::rows::{Exist, Row, Two};
use outside::{Kind, LinkText, Stat};
use path_text::Path;

// A row, how many bytes of each of its two files are to be read, and the outcome of reading them.
#[derive(Debug, Drop)]
pub(crate) struct Draft {
    // Until the files are read, its content says whether two links agree, and is the same as its size for all else.
    pub(crate) row: Row,
    pub(crate) unread: Option<u64>,
    pub(crate) outcome: Option<Outcome>,
}

impl Draft {
    // The row of the items that the sides have at a path. `links` says whether two links agree.
    pub(crate) fn of(a: Option<Item>, b: Option<Item>, links: Two) -> Draft
        requires { (is_some a || is_some b) ≡ true }
        ensures draft { result ≡ draft_of links (path_of a b) a b }
        ensures valid { refusal (path_of a b) ≡ None }
    {
        let exist = exist_of(a.is_some(), b.is_some());
        let s = item_stat(&a);
        let t = item_stat(&b);
        let path = path_of(a, b);
        let _text = path.text();
        let row = Row {
            path,
            exist,
            kind: kinds(s, t),
            size: sizes(s, t),
            content: content_before(links, s, t),
        };
        Draft {
            row,
            unread: to_read(s, t),
            outcome: None,
        }
    }
}

fn path_of(a: Option<Item>, b: Option<Item>) -> Path
    requires { (is_some a || is_some b) ≡ true }
    ensures { result ≡ path_of a b }
{
    match (a, b) {
        (Some(x), _) => x.path,
        (None, Some(y)) => y.path,
        (None, None) => unreachable!(),
    }
}

fn exist_of(source: bool, dest: bool) -> Exist
    ensures { result ≡ exist_of source dest }
{
    match (source, dest) {
        (true, true) => Exist::Common,
        (true, false) => Exist::OnlySrc,
        (false, _) => Exist::OnlyDest,
    }
}

fn item_stat(item: &Option<Item>) -> Option<Stat>
    ensures { result ≡ item_stat item.now }
{
    match item {
        None => None,
        Some(x) => x.stat,
    }
}

// Whether two values agree, if there are two.
pub(crate) fn two_of(same: bool) -> Two
    ensures { result ≡ two_of same }
{
    if same { Two::Common } else { Two::Differ }
}

fn kinds(s: Option<Stat>, t: Option<Stat>) -> Two
    ensures { result ≡ kinds s t }
{
    match (s, t) {
        (Some(s), Some(t)) => two_of(is_kind(s.kind, t.kind)),
        _ => Two::NoValue,
    }
}

fn is_kind(k: Kind, l: Kind) -> bool
    ensures { result ≡ is_kind k l }
{
    k == l
}

fn are_files(s: Stat, t: Stat) -> bool
    ensures { result ≡ are_files s t }
{
    is_kind(Kind::File, s.kind) && is_kind(Kind::File, t.kind)
}

fn sizes(s: Option<Stat>, t: Option<Stat>) -> Two
    ensures { result ≡ sizes s t }
{
    match (s, t) {
        (Some(s), Some(t)) if are_files(s, t) => two_of(s.size == t.size),
        _ => Two::NoValue,
    }
}

fn is_of(kind: Kind, stat: Option<Stat>) -> bool
    ensures { result ≡ is_of kind stat }
{
    match stat {
        None => false,
        Some(stat) => is_kind(kind, stat.kind),
    }
}

fn content_before(links: Two, s: Option<Stat>, t: Option<Stat>) -> Two
    ensures { result ≡ content_before links s t }
{
    if is_of(Kind::Link, s) && is_of(Kind::Link, t) {
        links
    } else {
        sizes(s, t)
    }
}

// Whether the texts of two links agree, if both are known.
pub(crate) fn texts(a: &Option<LinkText>, b: &Option<LinkText>) -> Two
    ensures { result ≡ texts a.now b.now }
{
    match (a, b) {
        (Some(text), Some(other)) => two_of(*text == *other),
        _ => Two::NoValue,
    }
}

// How many bytes of each of two files are to be read: all, if both have the same number and it is not 0.
fn to_read(s: Option<Stat>, t: Option<Stat>) -> Option<u64>
    ensures { result ≡ to_read s t }
{
    match (s, t) {
        (Some(s), Some(t)) if are_files(s, t) && (s.size == t.size && s.size != 0) => Some(s.size),
        _ => None,
    }
}
