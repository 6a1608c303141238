//! The parts of the help that several tools share.

const GLOBS: &str = "Globs are the values of --name and --path.

  *      any text, / included
  ?      any one character, / included
  [abc]  one of these characters
  [a-c]  one in this range
  [!abc] one that is not listed
  \\*     a star: a backslash takes away the meaning of the next character

Put ] first, or - first or last, to match the character itself. A [ that is
never closed matches itself.

--name compares the last component of the path, --path the whole path. A glob
must match all of it: '*tmp*' finds tmp inside a name. Upper and lower case
differ. Hidden names need no dot in the glob. Quote globs, or the shell replaces
them:

  mfu dfind --name '*.log' /srv            names that end in .log
  mfu dfind --path '/srv/*/cache/*' /srv   entries below a directory cache
  mfu dfind --name '[!a-z]*' /srv          names that do not begin with a to z
";

const EXPRESSIONS: &str =
    "Expressions choose rows of a comparison: mfu dcmp -o EXPR:FILE SOURCE DEST.

A condition is FIELD=STATE:

  EXIST    ONLY_SRC, ONLY_DEST, COMMON, or DIFFER (on one side only)
  TYPE     COMMON or DIFFER: the kinds are equal, or not
  SIZE     COMMON or DIFFER: the sizes of two regular files
  CONTENT  COMMON or DIFFER: the bytes of two files, or the texts of two links

@ means and, a comma means or, and @ binds tighter. The sign - of a row matches
neither state. The first : ends the expression, and an absolute path follows.

  EXIST=ONLY_SRC:/tmp/l                  only in SOURCE
  EXIST=ONLY_SRC,CONTENT=DIFFER:/tmp/l   only in SOURCE, or changed
  TYPE=COMMON@CONTENT=DIFFER:/tmp/l      same kind and other bytes

FILE gets SOURCE's entry of each row that matches, or DEST's if SOURCE has
none. dwalk and dfind read it with --input.
";

const MESSAGES: &str = "Messages are lines on standard error. Each comes once, after the walk. Set
MFU_ERRORS=FILE to see why a call failed. mfu appends a line for each: the
system's name of the error, the call and the path, as in EACCES list /a/b.

  Message          Where to look
  gone P           P does not exist, or went during the run: ls -ld P
  failed stat P    MFU_ERRORS; EACCES: a directory above P may not be searched;
                   NOTTEXT readlink: the link's text is not valid UTF-8
  failed list P    MFU_ERRORS; EACCES: the directory P may not be read
  failed read P    MFU_ERRORS; EACCES: the file P may not be read; EIO: the disk
  failed copy P    MFU_ERRORS, also for the target; ENOSPC, EDQUOT: space
  failed remove P  MFU_ERRORS; EACCES, EPERM: the directory of P, not P itself
  failed newer P   MFU_ERRORS; P is a path of --newer
  changed P        something replaced, shortened or removed P during the run
  not empty P      something in P was not chosen, or could not be deleted
  conflict P       another kind of entry is at the target of P
  skipped P        P is a socket, a pipe or a device, which is never copied
  parent P         a message names the directory above P
  long target P    the target of P would be over 4,095 bytes
  unnamed P K      K names in P are not valid UTF-8
  too long P K     K entries of P have paths over 4,095 bytes
  dest MESSAGE     a message about DEST

Runs that end without a report:
  refused word K   the command line; words count from 0, the tool
  refused ...      dcp, dsync: the paths, or the parent of DEST
  out of memory    the list did not fit
  too many entries more than 4,194,304; walk parts of the tree
  stopped ...      --stop-after; the checkpoint is saved
  list ... F       the list file F was not read or written: MFU_ERRORS
  damaged F line N the list file F is not valid at line N
";

const STATUSES: &str = "Exit statuses:

  0  Success, also if dcmp finds differences or ddup finds equal files.
  1  Finished, but standard error names paths that could not be read, copied or
     deleted. mfu help messages says where to look.
  2  The command line was refused, or the destination of dcp or dsync was.
     Nothing was done.
  3  Out of memory. dcp, dsync and drm may have changed some entries.
  4  Standard output or standard error could not be written, for example on a
     full disk or after | head. mfu prints no message. dcp, dsync and drm have
     finished their work; only the report is incomplete.
  5  More than 4,194,304 entries. Nothing was copied or deleted.
  6  The walk stopped because of --stop-after, and its checkpoint is saved.
  7  A list file or a checkpoint is damaged; standard error names the line.
  8  A list file or a checkpoint could not be read or written; standard error
     says why.

Statuses 2, 3 and 5 to 8 print nothing on standard output. In a script:

  mfu dcp /a /b; case $? in 0) ;; 1) retry ;; *) give_up ;; esac
";

const PERMISSIONS: &str = "The permissions that mfu needs, as any program does:

  to look at an entry    search (x) on every directory above it
  to list a directory    read (r) on it; to see its entries, x too
  to read a file         read (r) on it
  to make an entry       write and search (wx) on its directory
  to delete an entry     wx on its directory; if that is sticky, as /tmp,
                         you must own the entry or the directory
  to write into a file   dcp and dsync make a new one: wx on its directory

A failure is a message, and the run goes on: failed list, failed stat, failed
read, failed copy, failed remove. Set MFU_ERRORS=FILE to see the system's
reason: EACCES and EPERM are permissions, EROFS a file system that is read-only.

dcp and dsync copy no permissions, owners or times. New files get 0666 and
directories 0777, less the umask, also if a private file is replaced. For a
private copy:

  umask 077; mfu dsync /a /b; rsync -a --size-only /a/ /b/

As root every directory can be read and deleted. If other users can change the
tree, run drm, dcp and dsync as its owner instead.
";

/// The text of a topic.
pub fn topic(name: &str) -> Option<&'static str> {
    match name {
        "globs" => Some(GLOBS),
        "expressions" => Some(EXPRESSIONS),
        "messages" => Some(MESSAGES),
        "statuses" => Some(STATUSES),
        "permissions" => Some(PERMISSIONS),
        _ => None,
    }
}
