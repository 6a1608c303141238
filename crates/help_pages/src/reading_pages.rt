//! The help of the tools that only read trees.

// Each text begins with one screen, 24 lines of at most 80 columns: the call, the options most used, the exit statuses, and that paths
// are absolute.

pub(crate) const DWALK: &str = "usage: mfu dwalk [OPTION]... PATH...
       mfu dwalk [OPTION]... --input FILE
       mfu dwalk [OPTION]... --restart --lists DIR

Lists each path and everything below it, in path order. A line has the kind (f,
d, l or o), the size, the path, and -> TEXT for a link; the last one counts.
Follows no links, crosses mount points, prints at the end. Paths are absolute.

  --hosts N      run in N threads, 1 to 64 (default 1)
  --ranks N      divide the work among N ranks, workers with a queue of paths
                 each, 1 to 64 (default 4)
  --sort FIELD   sort by path, name, size, mtime or kind; -FIELD reverses
  --output FILE  save the list, in path order
  --input FILE   print the list saved in FILE instead of walking

Exit status:
  0  success
  1  finished; standard error names the paths that failed
  2  command line refused    3  out of memory    4  output could not be written
  5  too many entries        6  stopped          7  list or checkpoint damaged
  8  a list file could not be read or written

Walking in stages:
  --stop-after K  stop when one rank has handled K paths, and save a checkpoint:
                  the entries found and the paths left; prints nothing
  --lists DIR     the directory of the checkpoint; it must exist
  --restart       continue from the checkpoint in DIR; give no PATH
--stop-after and --restart need --lists. --stop-after excludes --trace. All
stages together may find 4,194,304 entries.

These change nothing in the list:
  --split RULE   how a rank divides its queue with ranks that ask for work:
                 equal (default) or random
  --seed N       seed of the random numbers, below 2^64 (default 0)
  --width N      fan-in of the tree that adds up counts, 2 to 64 (default 64)

Reports on the walk, first on standard error:
  --trace        every step of every rank, one per line; only with one thread
  --shares       how many paths each rank handled, gave away and received
  --progress     the number of entries found, as it rose by 1,000 or more, and
                 at the end; it is printed after the walk, like everything

A path that is equal to or below another given path is dropped, even if the
other one is a link. The word -- ends the options. Control bytes and backslashes
in paths and link texts are printed as \\x and two digits. FILE of --input must
be a regular file, not a link or a pipe.

Messages on standard error:
  gone P                        P does not exist
  failed stat P                 P, or the text of the link P, could not be read
  failed list P                 the names in P could not be read
  changed P                     P was a directory or a link, and then was not
  unnamed P K                   K names in P are not valid UTF-8; they are left
                                out, with everything below them
  too long P K                  K entries of P have paths over 4,095 bytes

A walk that stopped, with nothing on standard output:
  stopped handled H left L      H paths were handled, L are left

A list that was not read or written, with nothing on standard output:
  list absent F                 there is no file F
  list place F                  F cannot be written: its directory does not
                                exist, or something else has that name
  list fault F                  the system reported an error
  damaged F line N              line N of F is the first bad one
";

pub(crate) const DFIND: &str = "usage: mfu dfind [OPTION]... [TEST]... PATH...
       mfu dfind [OPTION]... [TEST]... --input FILE

Lists the entries that dwalk would list and that pass all tests, then a summary.
Paths are absolute.

  --name GLOB    the name matches;  --path GLOB  the whole path matches
  --type KIND    f, regular file; d, directory; l, symbolic link; o, other
  --size BOUND   size in bytes; suffix B, k, M or G
  --mtime BOUND  days since the last modification;  --mmin BOUND  minutes
  --newer PATH   modified after PATH was
  --sort FIELD   sort by path, name, size, mtime or kind; -FIELD reverses
  --output FILE  save the entries found;  --input FILE  search a saved list
  --hosts N      run in N threads, 1 to 64 (default 1)
A BOUND is N (exactly), +N (more) or -N (less).

Exit status:
  0  success
  1  finished; standard error names the paths that failed
  2  command line refused    3  out of memory    4  output could not be written
  5  too many entries        7  list damaged
  8  a list file could not be read or written

Tests may be repeated; an entry must pass all of them. The other options are
those of dwalk. Every failure is reported, even for paths that no test matches.

B, k, M and G multiply by 1, 1,024, 1,024^2 and 1,024^3. Anything but a regular
file has size 0. A day has 86,400 seconds. An entry without a time passes no
test of time. --newer compares whole seconds; PATH is looked at once, at the
start.

In a GLOB * matches any text and ? any character, / included. [abc] matches one
of these, [a-c] one in the range, [!abc] any other. Put ] first, or - first or
last, to match the character itself. A backslash takes away the meaning of the
next character; a [ that is never closed matches itself.

Messages on standard error, besides those of dwalk:
  gone P, failed newer P        a path P of --newer does not exist, or could not
                                be looked at
";

pub(crate) const DCMP: &str = "usage: mfu dcmp [OPTION]... [-o EXPR:FILE]... SOURCE DEST

Compares two trees. Prints a line for each path on either side, with four signs
and the path below SOURCE and DEST; the last line counts. Files of equal size
are read until they differ. Nothing is changed but the files of -o. Paths are
absolute.

  EXIST    S, only in SOURCE; D, only in DEST; C, in both
  TYPE     =, same kind; !, different; -, nothing to compare
  SIZE     the same for the sizes of regular files
  CONTENT  the same for their bytes

  -o EXPR:FILE   save matching entries as a list: EXIST=ONLY_SRC, or
                 EXIST=ONLY_SRC,CONTENT=DIFFER (, is or; @ is and)
  --hosts N      run in N threads, 1 to 64 (default 1)

Exit status:
  0  success, even if the trees differ
  1  finished; standard error names the paths that failed
  2  command line refused    3  out of memory    4  output could not be written
  5  too many entries        8  a list file could not be written

The path / is SOURCE and DEST themselves. A sign is - if the path is on one side
only. SIZE is - unless both are regular files. CONTENT is - unless both are
regular files or both are links, and if one could not be read. The CONTENT of a
link is its text. Names that are not valid UTF-8 are on no line; a message
counts them.

-o saves SOURCE's entry of each line that matches EXPR, or DEST's if SOURCE has
none, in path order. It may be repeated; the lists are written in that order,
before anything is printed. dwalk and dfind read them with --input.

An EXPR is FIELD=STATE, or several joined by @ (and) and , (or); @ binds
tighter. EXIST has the states ONLY_SRC, ONLY_DEST, COMMON and DIFFER (one side
only); TYPE, SIZE and CONTENT have COMMON and DIFFER, and the sign - matches
neither. The first : ends the EXPR.

Nothing is printed below a directory that could not be listed on one side, or
that has entries with paths over 4,095 bytes there. A message names it.

--ranks, --split, --seed and --width are as for dwalk, and do not change the
lists.

Messages on standard error, besides those of dwalk about both sides:
  failed read P                 the file P could not be read
  changed P                     P changed while it was read
  dest ...                      a message about DEST

A list that was not written is named as by dwalk, and nothing is printed.
";

pub(crate) const DDUP: &str = "usage: mfu ddup [OPTION]... PATH...

Finds regular files with equal bytes at and below each path. Prints a group of
them as the line group SIZE COUNT SHA256 and a line for each path, in path
order. The last line counts groups, files, the bytes of all but one file of each
group, and messages. Changes nothing. Paths are absolute.

  --hosts N      run in N threads, 1 to 64 (default 1)
  --ranks N      divide the walk among N ranks, 1 to 64 (default 4)

  mfu ddup /a /b             files of /a and /b, also across the two
  mfu ddup /a | tail -n 1    the counts alone

Exit status:
  0  success, even if there are equal files
  1  finished; standard error names the paths that failed
  2  command line refused    3  out of memory    4  output could not be written
  5  too many entries

Two files are in one group if and only if their bytes are equal. Only files that
share their size with another file are read, each up to its size. Files of size
0, as in /proc, form one group and are not read. Names, permissions, owners and
times do not matter.

A file with several hard links is listed once for each: delete one, and no space
is freed. stat -c '%d %i %n' shows which paths are the same file. SIZE is the
number of bytes, and says nothing of holes or compression. Links are not
followed. The digest is that of sha256sum.

A file that could not be read or became shorter is in no group; a message names
it. The files can change after the run: compare again before you delete one.
Mount points are crossed. Names that are not valid UTF-8 are left out.

--split, --seed and --width are as for dwalk, and do not change the groups.

Messages on standard error, besides those of dwalk:
  failed read P                 the file P could not be read
  changed P                     P had become shorter or was no longer a file
                                when it was read
";

pub(crate) const DTEST: &str = "usage: mfu dtest [OPTION]... [TEST]... N

Makes a tree of N nodes in memory, 1 to 1,000,000, walks it, and prints the
summary of the nodes that pass all tests. Touches no disk.

  --ranks N      divide the work among N ranks, 1 to 64 (default 4)
  --hosts N      run in N threads, 1 to 64 (default 1)
  --shares       report how many paths each rank handled, gave away and received
  --type KIND    f, file; d, directory; the other tests are those of dfind

Exit status:
  0  success
  1  finished; standard error names a path of --newer that does not exist
  2  command line refused    3  out of memory    4  output could not be written

Node K is named nK; node 0 is below /, every other node K below node (K - 1) /
8, rounded down. A node with children is a directory, any other a file of 37 K
mod 101 bytes. Nodes have no times.

A path of --newer is absolute, and is looked at in the made-up tree. --split,
--seed, --width, --trace and --progress are as for dwalk.
";
