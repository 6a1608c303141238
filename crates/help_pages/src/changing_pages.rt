//! The help of the tools that change trees. Each text begins with one screen, as in `reading_pages`.

pub(crate) const DCP: &str = "usage: mfu dcp [OPTION]... SOURCE... DEST

Copies trees. If DEST is a directory, each SOURCE goes into it under its own
last name. Otherwise there must be one SOURCE, and the copy is DEST. Prints how
many entries were copied, of how many, their bytes, and the number of messages.
Does not ask before it replaces files. Copies no permissions, owners or times;
the umask decides who can read the copy. Paths are absolute.

  --hosts N      run in N threads, 1 to 64 (default 1)
  --ranks N      divide the work among N ranks, 1 to 64 (default 4)
  --range BYTES  copy a file of more than BYTES bytes in ranges, by all threads

  mfu dcp /a/b /d      copies to /d/b if /d is a directory, otherwise to /d
  mfu dcp /a /b /d     copies to /d/a and /d/b

Exit status:
  0  success
  1  finished; standard error names the paths that failed
  2  command line refused; or refused overlap: two of all sources and targets
     are equal or one is below the other; or refused no directory: a target has
     no directory to go to. Nothing was changed
  3  out of memory; some targets may have been changed
  4  output could not be written; the copy was made
  5  too many entries; nothing was changed

A directory that exists at a target is kept with its contents. A file there is
deleted and made anew. Anything of another kind is left alone, with a message.
Other things in DEST stay as they are. A link is copied with its text as it is,
in place of a link that is there. Sockets, pipes and devices are not copied; a
message names them. Holes are written as zeros; a file with several hard links
becomes several files. Upper levels are copied first.

A copy of a private file may be readable by everybody, also if it replaces a
private file: set umask 077 first. Mount points are crossed. Files of size 0, as
in /proc, come out empty. Names that are not valid UTF-8 are left out. An
interrupted run prints nothing, and may leave incomplete files. If other users
can change the trees, run dcp as their owner, not as root.

Without --range one thread copies a file. With it each file of more than BYTES
bytes (1 to 2^63 - 1) is cut into ranges of at least BYTES bytes, 4,096 at most.
All threads copy them, one such file after the other. The copy is the same. This
pays for one file of many gigabytes on a parallel file system, or read from a
network or several devices at once. It does not on one local disk.

--split, --seed and --width are as for dwalk, and do not change the copy.

Messages on standard error, besides those of dwalk about the sources:
  failed copy P                 P could not be copied; its target may be missing
                                or incomplete
  conflict P                    something of another kind is at the target of P
  skipped P                     P is a socket, a pipe or a device
  parent P                      the directory above P was not copied
  long target P                 the target of P is over 4,095 bytes
  changed P                     P or its target changed during the copy
  failed stat P                 also if P is DEST or its parent; then nothing is
                                copied
";

pub(crate) const DSYNC: &str = "usage: mfu dsync [OPTION]... SOURCE DEST

Makes DEST equal to SOURCE: copies the entries that are missing or different,
and keeps those that are equal. With --delete also deletes everything in DEST
that SOURCE does not have. Does not ask first. Prints how many entries were
copied, deleted and kept, and the number of messages. Paths are absolute.

  --delete       delete entries that only DEST has, also on mounted file systems
  --hosts N      run in N threads, 1 to 64 (default 1)
  --ranks N      divide the work among N ranks, 1 to 64 (default 4)

  mfu dcmp /a /b             shows how /b differs from /a
  mfu dsync /a /b            copies to /b; entries that only /b has stay
  mfu dsync --delete /a /b   deletes those entries, too

Exit status:
  0  success
  1  finished; standard error names the paths that failed
  2  command line refused; or refused overlap: one of the paths is equal to or
     below the other; or refused no directory: the parent of DEST is not a
     directory. Nothing was changed
  3  out of memory; DEST may have been changed
  4  output could not be written; the work was done
  5  too many entries; nothing was changed

The contents of SOURCE go to DEST itself, not into a directory below it. DEST
need not exist, but its parent directory must. An entry is kept if DEST has a
directory for a directory, a file with the same bytes, or a link with the same
text. Any other entry is copied as by dcp: a file or a link is deleted and made
anew. An entry of another kind is deleted first with --delete; without it, it
stays, with a message. Before a first --delete look at the output of dcmp.

Files are equal by their bytes; all files of equal size are read. Permissions,
owners and times are neither compared nor copied: set umask 077 first to keep a
copy private. Holes are written as zeros.

Sockets, pipes and devices of SOURCE are skipped, with a message. In DEST
everything at and below such a path stays. So does everything below a directory
that on either side could not be listed or has paths over 4,095 bytes. Names
that are not valid UTF-8 stay. If SOURCE cannot be looked at, nothing is
changed.

An interrupted run prints nothing: run it again. After a run with status 0 a
second one copies and deletes nothing. If other users can change the trees, run
dsync as their owner, not as root.

--split, --seed and --width are as for dwalk, and do not change the result.

Messages on standard error, besides those of dwalk about both sides:
  failed read P                 the file P could not be read; it is not kept
  failed copy P                 P could not be copied; its target may be missing
                                or incomplete
  conflict P                    something of another kind is at the target of P
  skipped P                     P is a socket, a pipe or a device
  parent P                      the directory above P was not copied
  long target P                 the target of P is over 4,095 bytes
  failed remove P               P could not be deleted
  not empty P                   P is a directory with something left in it
  changed P                     P or its target changed during the run
  failed stat P                 also if P is the parent of DEST; then nothing is
                                changed
";

pub(crate) const DRM: &str = "usage: mfu drm [OPTION]... [TEST]... PATH...

Deletes every entry of each tree that passes all tests; without tests, the whole
tree, PATH included. It does not ask first, and deleted entries cannot be
restored. Prints each chosen entry as dwalk does, then how many were deleted.
Crosses mount points. Paths are absolute, and / is refused.

  --dryrun       delete nothing; print the chosen entries
  --name GLOB    the name matches; the other tests are those of dfind
  --hosts N      run in N threads, 1 to 64 (default 1)

  mfu drm --dryrun --name '*.tmp' /p   shows which entries of /p it would delete
  mfu drm --name '*.tmp' /p            deletes them

Exit status:
  0  success
  1  finished; standard error names the paths that failed
  2  command line refused    3  out of memory; some entries may be deleted
  4  output could not be written; the entries were deleted
  5  too many entries; nothing was deleted

The deepest level goes first. A directory is deleted only if it is empty by
then. Nothing is deleted that was not chosen, so a directory that still contains
something stays, with a message. A link is deleted, not the file that it leads
to. Names that are not valid UTF-8 stay. An interrupted run prints nothing. If
other users can change a tree, run drm as the owner of the tree, not as root.

--ranks, --split, --seed and --width are as for dwalk, and do not change the
result.

Messages on standard error, besides those of dfind:
  failed remove P               P could not be deleted
  not empty P                   P is a directory with something left in it
  changed P                     P was replaced or had gone when it was to be
                                deleted
";
