//! The comparison of two lists of entries, row by row, and the expressions over a row.
//!
//! - [`compare`] compares the lists of two walks, each taken below its own top. It reads the files that both have with one size. It
//!   gives a [`Compared`]: a [`Row`] for each path, in path order, and the files that it did not read, as [`Missed`]. Their reads
//!   failed, or they changed after they were listed. [`compare_files`] does the same with readers that the files lend and take back.
//! - A row says by [`Exist`] on which side its path is, and by [`Two`] whether kinds, sizes and contents agree.
//! - [`parse_expr`] reads an [`Expr`] from a text, or gives its first error as an [`ExprError`]. [`Expr::holds`] tests a row.
//!
//! ```text
//! let found = compare(rt, alloc, &left, &p, &right, &q, &mut readers, hosts)?;
//! let differ = parse_expr(alloc, "EXIST=DIFFER,CONTENT=DIFFER")?;
//! for k in 0..found.len() {
//!     if differ.holds(found.row(k)) {
//!         // ...
//!     }
//! }
//! ```
//!
//! If a side does not know all children of a path, nothing below that path is compared. Then its stat or its list failed, it changed,
//! or a child's path would be too long. An entry that is gone is on no side. Two links are compared by the texts that the lists have.
//! Files without bytes are equal and are not read. Files of two sizes differ and are not read. All other pairs of files are read in
//! pieces of 64 KiB, the source's first, up to the first piece that differs. If a read of the source's file fails, the destination's
//! is not read.
//!
//! # Parts
//!
//! `items` and `merging` go over the two lists once, and make a draft of each row. They look up nothing by its path, and copy no text
//! of a link. `sharing` lets workers read the files of rows, each with a reader and two buffers of its own (`shared_reads`). A worker
//! takes the next row that none has taken, by a shared count. `settling` puts the outcomes beside the rows, and reads the files whose
//! outcome no worker could keep. `reading` compares two files, and `compared` makes the findings. [`fill`] reads
//! the bytes of one file into a buffer. `lending` takes readers from the files for all that ([`lent_readers`]), and gives them back.
//!
//! # What is proved
//!
//! The findings are those of a definition that knows no merge, no piece and no worker (`specs/Rows.antt`, `IsComparison`):
//!
//! - The rows ascend strictly, and a path has a row exactly if it is shown. Each row is a function of the two sides' entries there and
//!   of the reads that gave nothing.
//! - If the readers tell their tree, a content that was read says whether the bytes are equal, and no file counts as changed.
//! - Over all files, a read asked for each failed or changed file at its path, and the answer of that read is the cause.
//! - Failed reads are at most as many as the readers' counts rose together, or one of these counts is at its end. No count falls. Each
//!   reader comes back to its place and tells the same tree.
//!
//! An expression is the one that the grammar in `specs/Expressions.antt` gives, or its first error.
//!
//! Not claimed: that threads ran side by side, and that out of memory comes only if the system refused memory.
#![tactic(auto)]

mod compared;
mod comparing;
mod conditions;
mod drafts;
mod errors;
mod expressions;
mod items;
mod laws;
mod lending;
mod merging;
mod reading;
mod rows;
mod settling;
mod sharing;

pub use compared::Compared;
pub use comparing::compare;
pub use errors::{CmpError, ExprError};
pub use expressions::{Expr, parse_expr};
pub use laws::{faults_are_told, worked_expressions, worked_rows};
pub use lending::{compare_files, lent_readers};
pub use reading::{Missing, fill};
pub use rows::{Exist, Missed, Row, Two};
