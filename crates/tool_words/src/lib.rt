//! The words of a command line: the command that they give, or the word that is refused.
//!
//! [`read_words`] reads the words after the program's name and gives a [`Command`]. Word 0 names one of eight tools:
//!
//! - `dwalk` lists one or more paths and everything below them, or reads the list from a file. It may also stop before the end, or
//!   continue from where an earlier walk stopped; then it has no path.
//! - `dfind` does the same, and keeps the entries that pass all tests.
//! - `dcmp` compares two trees, a source and a destination.
//! - `dcp` copies one or more trees to the destination, which is the last path.
//! - `dsync` makes the second of two paths equal to the first.
//! - `ddup` groups the files with equal contents at and below one or more paths.
//! - `drm` deletes the entries that pass all tests, at and below one or more paths. None of these is `/`.
//! - `dtest` walks a made-up tree, and sums up the entries that pass all tests. It takes the number of nodes, 1 to 1,000,000.
//!
//! All eight have these options:
//!
//! | Option | Value | Default |
//! |---|---|---|
//! | `--ranks` | the number of ranks, 1 to 64 | 4 |
//! | `--hosts` | the number of threads in which the ranks run, 1 to 64 | 1 |
//! | `--split` | `equal` or `random`: how much a rank gives to one that asks | `equal` |
//! | `--seed` | the seed of the random numbers, below 2^64 | 0 |
//! | `--width` | how many ranks report their counts to one other rank, 2 to 64 | 64 |
//!
//! `dwalk`, `dfind` and `dtest` have three flags, `--trace`, `--shares` and `--progress`. `--trace` needs one host. `dwalk` and `dfind` have
//! these:
//!
//! | Option | Value | Default |
//! |---|---|---|
//! | `--sort` | `path`, `name`, `size`, `mtime` or `kind`; a `-` before it reverses the order | path order |
//! | `--input` | the file from which the list is read; then there is no path | the paths are walked |
//! | `--output` | the file to which the list is written | none is written |
//!
//! Only `dwalk` has these:
//!
//! | Option | Value | Default |
//! |---|---|---|
//! | `--stop-after` | after how many paths of one rank the walk stops, 1 to 2^63 - 1 | it does not stop |
//! | `--lists` | the directory of the checkpoint | none |
//! | `--restart` | none: the walk continues from the checkpoint | it begins at the paths |
//!
//! `--stop-after` and `--restart` need `--lists`, and `--lists` needs one of them. `--trace` cannot be combined with `--stop-after`, and
//! `--input` with neither of the two.
//!
//! These are the tests of `dfind`, `drm` and `dtest`. Without tests all entries are kept:
//!
//! | Option | Value |
//! |---|---|
//! | `--name`, `--path` | a glob for the last name, or for the whole path |
//! | `--type` | `f`, `d`, `l` or `o`: a file, a directory, a link, or something else |
//! | `--size` | a bound on the bytes; `B`, `k`, `M` or `G` may follow its digits |
//! | `--mtime`, `--mmin` | a bound on the age in days, or in minutes |
//! | `--newer` | a path: the entry must have changed after it |
//!
//! A bound is `N`, `+N` or `-N`: equal to N, greater, or less.
//!
//! `dcmp` has `-o`. Its value is an expression on the rows of the comparison and the path of a file, with a `:` between them. `dcp` has
//! `--range`, a number of bytes, 1 to 2^63 - 1: it copies a file of more bytes in ranges. `dsync` has the flag `--delete`: it then
//! deletes the entries that only the destination has. `drm` has the flag `--dryrun`: it then deletes nothing.
//!
//! A value follows the first `=`, or is the next word, whatever that is. Tests and `-o` may be repeated; every other option is
//! given once. A number has 1 to 40 decimal digits, the first of which may be 0. A `/` at the end of a path is left out. The word `--`
//! ends the options: each later word is a path, or a number for `dtest`, whatever it begins with.
//!
//! ```text
//! dwalk /t/b /t/                        // walks `/t/b` and `/t`
//! dwalk --sort -size -- /-x             // walks `/-x`, the largest first
//! dfind --name *.log --size +10M /t     // the logs in `/t` above 10 MB
//! dfind --mtime +1 --mtime -7 /t        // entries that are two to six days old
//! dfind --input /l --newer /stamp       // entries of the list in `/l` that changed after `/stamp`
//! dcmp -o EXIST=ONLY_SRC:/l /p /q       // compares `/q` to `/p`, and saves the entries that only `/p` has
//! dcp /p /q /r                          // copies `/p` and `/q` to `/r`
//! dcp --range 1000000 /p /r             // copies each file of more than 1,000,000 bytes in ranges
//! dsync --delete /p /q                  // makes `/q` equal to `/p`, and deletes the entries that only `/q` has
//! ddup /p /q                            // groups the files of `/p` and `/q` by their contents
//! drm --dryrun --name core.* /t         // names the entries of `/t` that it would delete
//! dtest --type d 100000                 // the directories of a tree of 100,000 nodes
//! dwalk --x /t                          // UnknownOption(1)
//! dwalk --name x /t                     // UnknownOption(1)
//! dwalk /t /t/../a                      // BadValue(2)
//! dfind /t --size 2x                    // BadValue(3)
//! dtest 1000001                         // BadValue(1)
//! dwalk /t --sort                       // NoValue(2)
//! dwalk --trace=1 /t                    // BadValue(1)
//! dwalk --trace --trace=1               // BadValue(2)
//! dwalk --sort=size --sort              // NoValue(2)
//! dwalk --sort=size --sort x            // Clash(2)
//! dwalk --input /l /t                   // TooManyPaths(3)
//! dtest 10 20                           // TooManyPaths(2)
//! dcmp /p                               // NoPath(2)
//! dcp /p                                // NoPath(2)
//! dcp --range 0 /p /r                   // BadValue(2)
//! ddup --range 1 /p                     // UnknownOption(1)
//! ddup                                  // NoPath(1)
//! dsync /p /q /r                        // TooManyPaths(3)
//! dsync --delete /p --delete            // Clash(3)
//! dsync --delete=x /p /q                // BadValue(1)
//! dcmp /p -o FOO=DIFFER:/r /q           // BadValue(3)
//! drm /t /                              // BadValue(2)
//! dwalk --                              // NoPath(2)
//! dwalk --trace --hosts 2 /t            // Clash(1)
//! dwalk --trace --hosts 2               // NoPath(4)
//! dwalk --stop-after 9 --lists /s /t    // walks `/t`, and stops when one rank has handled 9 paths
//! dwalk --restart --lists /s            // continues from the checkpoint in `/s`
//! dwalk --restart /t                    // TooManyPaths(2)
//! dwalk --stop-after 9 /t               // Clash(1)
//! ```
//!
//! The words are read from left to right, and the answer is the first offence, with the number of its word. Missing paths, or too
//! many, are reported after the last word, and after that options that cannot be combined. Of several offences at one word the
//! first of [`Cause`] is reported. An offence in the option's own word goes before a repetition, and a refused value in the next word
//! comes after it.
//!
//! # Parts
//!
//! A tool, a group of options and an option are each one line of a table in `specs/Table.antt`: its name, the options of a tool, the
//! setting of a value. Each has an arm in `tables` and in `settings`. Options that cannot be combined have a line each in
//! `specs/Clashes.antt`, and a method in `clashes`. `specs/Value.antt` and `values` say which texts are values; `specs/Words.antt` and
//! `lines`, how words are read one by one. `specs/Asked.antt` defines the command of each tool, and `asking` makes it, with a method
//! a tool. The value of a test is read by `find_tests`, and an expression by `tree_cmp`.
//!
//! # What is proved
//!
//! For every list of words the answer is the command, or the refusal, that the grammar in `specs/Words.antt` gives. The only other
//! answer is want of memory, and the grammar never gives that. Only the paths and the globs of the command are copied. All
//! numbers and paths of a command are within the limits of a run ([`words_ask_within_limits`]).
#![tactic(auto)]

mod asking;
mod clashes;
mod commands;
mod errors;
mod laws;
mod lines;
mod reading;
mod settings;
mod tables;
mod trimming;
mod turns;
mod values;

pub use commands::{Command, Common, Start, Tests, Want};
pub use errors::{Cause, Refusal, WordsError};
pub use laws::words_ask_within_limits;
pub use reading::read_words;
