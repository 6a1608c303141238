//! The words of lines, and their meanings.
use crate::deeds::Deed;
use crate::{events, lists, notes, pages, paths, queues};
use find_tests::TestName;
use flat_list::Field;
use tool_text::Why;

/// The first words of lines.
pub static DEEDS: [(&str, Deed); 57] = [
    ("text", Deed::Text),
    ("words", Deed::Words),
    ("standard", Deed::Standard),
    ("glob", Deed::Glob),
    ("test", Deed::Test),
    ("expr", Deed::Expr),
    ("ranges", Deed::Ranges),
    ("help", Deed::OfPages(pages::Asked::Help)),
    ("help_among", Deed::OfPages(pages::Asked::HelpAmong)),
    ("hint", Deed::OfPages(pages::Asked::Hint)),
    ("placing", Deed::OfPages(pages::Asked::Placing)),
    ("path", Deed::OfPaths(paths::Asked::Parse)),
    ("name", Deed::OfPaths(paths::Asked::Name)),
    ("join", Deed::OfPaths(paths::Asked::Join)),
    ("under", Deed::OfPaths(paths::Asked::Under)),
    ("within", Deed::OfPaths(paths::Asked::Within)),
    ("below", Deed::OfPaths(paths::Asked::Below)),
    ("ascend", Deed::OfPaths(paths::Asked::Ascend)),
    ("unescape", Deed::OfPaths(paths::Asked::Unescape)),
    ("link", Deed::OfPaths(paths::Asked::Link)),
    ("unescape_link", Deed::OfPaths(paths::Asked::UnescapeLink)),
    ("long", Deed::OfPaths(paths::Asked::Long)),
    ("push", Deed::OfQueues(queues::Asked::Push)),
    ("give", Deed::OfQueues(queues::Asked::Give)),
    ("back", Deed::OfQueues(queues::Asked::Back)),
    ("clear", Deed::OfQueues(queues::Asked::Clear)),
    ("take", Deed::OfQueues(queues::Asked::Take)),
    ("waiting", Deed::OfQueues(queues::Asked::Waiting)),
    ("queued", Deed::OfQueues(queues::Asked::Queued)),
    ("share", Deed::OfQueues(queues::Asked::Share)),
    ("lots", Deed::OfQueues(queues::Asked::Lots)),
    ("decode", Deed::OfLists(lists::Asked::Decode)),
    ("again", Deed::OfLists(lists::Asked::Again)),
    ("add", Deed::OfLists(lists::Asked::Add)),
    ("rank", Deed::OfLists(lists::Asked::Rank)),
    ("merge", Deed::OfLists(lists::Asked::Merge)),
    ("paths", Deed::OfLists(lists::Asked::Paths)),
    ("lines", Deed::OfLists(lists::Asked::Lines)),
    ("summary", Deed::OfLists(lists::Asked::Summary)),
    ("levels", Deed::OfLists(lists::Asked::Levels)),
    ("spread", Deed::OfLists(lists::Asked::Spread)),
    ("page", Deed::OfLists(lists::Asked::Page)),
    ("place", Deed::OfLists(lists::Asked::Place)),
    ("sort", Deed::OfLists(lists::Asked::Sort)),
    ("order", Deed::OfLists(lists::Asked::Order)),
    ("select", Deed::OfLists(lists::Asked::Select)),
    ("marks", Deed::OfNotes(notes::Asked::Marks)),
    ("note", Deed::OfNotes(notes::Asked::Note)),
    ("dest", Deed::OfNotes(notes::Asked::Dest)),
    ("notes", Deed::OfNotes(notes::Asked::AsTheyStand)),
    ("ordered", Deed::OfNotes(notes::Asked::InOrder)),
    ("say", Deed::OfNotes(notes::Asked::Say)),
    ("progress", Deed::OfNotes(notes::Asked::Progress)),
    ("shares", Deed::OfNotes(notes::Asked::Shares)),
    ("trace", Deed::OfEvents(events::Asked::Trace)),
    ("check", Deed::OfEvents(events::Asked::Check)),
    ("steps", Deed::OfEvents(events::Asked::Steps)),
];

/// The names of tests.
pub static TESTS: [(&str, TestName); 6] = [
    ("name", TestName::Name),
    ("path", TestName::Path),
    ("type", TestName::Kind),
    ("size", TestName::Size),
    ("mtime", TestName::Days),
    ("mmin", TestName::Minutes),
];

/// The fields by which a list is sorted.
pub static FIELDS: [(&str, Field); 5] = [
    ("path", Field::Path),
    ("name", Field::Name),
    ("size", Field::Size),
    ("mtime", Field::Mtime),
    ("kind", Field::Kind),
];

/// The reasons of notes that have no number.
pub static WHYS: [(&str, Why); 13] = [
    ("Gone", Why::Gone),
    ("FailedStat", Why::FailedStat),
    ("FailedNewer", Why::FailedNewer),
    ("FailedList", Why::FailedList),
    ("Changed", Why::Changed),
    ("FailedRead", Why::FailedRead),
    ("FailedCopy", Why::FailedCopy),
    ("Conflict", Why::Conflict),
    ("Skipped", Why::Skipped),
    ("Parent", Why::Parent),
    ("LongTarget", Why::LongTarget),
    ("FailedRemove", Why::FailedRemove),
    ("NotEmpty", Why::NotEmpty),
];
