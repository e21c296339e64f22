//! What the program says of itself.

pub(crate) const ABOUT: &str =
    "An in-memory table server that captures changes as the SQLite session extension does";

pub(crate) const EXAMPLE: &str = "A first run. This text on the standard input of `changecap run`:

    create t kv
    session
    attach 1 t
    commit insert t (1,'x')
    changeset 1

makes a table with a key column and another one, records its changes, adds a row, and prints the changes
as a changeset:

    ok version 1
    session 1
    ok
    ok version 2
    changeset 5402010074001200010000000000000001030178

`changecap run --help` has every command. `changecap show` prints what is in those digits, `changecap
invert` prints the changeset that undoes them, and `changecap patchset` their patchset. `changecap concat`
makes one changeset of several, and `changecap rebase` one that fits rows that were changed elsewhere.
Nothing runs before the end of the input, except in `changecap shell`, which runs each line as it is read.

What is refused has a code. G1 Syntax, G2 (a limit, with its E) and G3 (a blob, with its D) are of a line
of a workload, and have its number. D1 Truncated, D2 BadHeader, D3 BadVarint, D4 BadName, D5 BadOp, D6
BadField, D7 Real, D8 BadText, D9 BadRecord and D10 Mixed are of the bytes of a blob. E1 to E20 are of a
command, as E5 Duplicate, and E21 to E25 of a line that does not fit the transaction or the application
that is open, or that none is; the refusal is its reply, and the next line runs.

The exit status is 0 where the input was run or printed, 1 where it is refused, 2 where the command line
is, and 3 where memory ran out or a read or a write failed. With -v a line on standard error then says what
failed.";

pub(crate) const RUN_ABOUT: &str =
    "Run the workload on standard input and print the reply to each command";

pub(crate) const SHELL_ABOUT: &str =
    "Run each line of standard input as it is read and print its reply at once";

pub(crate) const LOAD_ABOUT: &str =
    "Print the lines of a workload that make the tables and rows of dumps";

pub(crate) const LOAD_EXAMPLE: &str = "A dump is a changeset of INSERTs. For example
    echo 5402010074001200010000000000000001030178 | changecap load
prints
    create t kv
    apply x'5402010074001200010000000000000001030178' abort abort abort
so that with `changecap load FILE | cat - WORKLOAD | changecap run` the workload has the tables and rows of
the dump. A table is created once, whatever number of groups and of dumps it is in. A patchset is refused,
and so are a changeset with an UPDATE or a DELETE, a table with other columns than before, and one whose
name is no word of a workload.";

pub(crate) const SHOW_ABOUT: &str = "Print what is in the changeset or patchset on standard input";

pub(crate) const INVERT_ABOUT: &str = "Print the inverse of the changeset on standard input";

pub(crate) const PATCHSET_ABOUT: &str = "Print the patchset of the changeset on standard input";

pub(crate) const CONCAT_ABOUT: &str =
    "Print the concatenation of the changesets or patchsets on standard input, one a line";

pub(crate) const REBASE_ABOUT: &str =
    "Print the changeset on the first line of standard input over the buffers on the other lines";

pub(crate) const SQL_HELP: &str =
    "Print a SQL statement for each change, on columns c0, c1 and so on";

pub(crate) const JSON_HELP: &str = "Print a JSON array with an object for each change";

pub(crate) const JSON_LINES_HELP: &str = "Print a JSON object for each change, on a line each";

pub(crate) const COLUMNS_HELP: &str =
    "The names of the columns of table T, with commas between them; for each table once";

pub(crate) const BINARY_INPUT_HELP: &str = "The input is the bytes themselves, not hex digits";

pub(crate) const BINARY_HELP: &str = "Input and output are the bytes themselves, not hex digits";

pub(crate) const KEY_FLAGS_HELP: &str =
    "How the output flags key columns: by their places within the key, as SQLite's code does, or by ones";

pub(crate) static KEY_FLAGS: [&str; 2] = ["places", "ones"];

pub(crate) const THREADS_HELP: &str =
    "How many workers the lines that begin with @K belong to, from 1 to 63";

pub(crate) const REPLY_JSON_HELP: &str = "Print each reply as a JSON object on a line";

pub(crate) const EXPLAIN_HELP: &str =
    "Say on standard error what a fault or a refusal means, and show where the line has it";

pub(crate) const PROGRESS_HELP: &str =
    "Show on standard error how many lines were printed, as a terminal does that shows nothing else";

pub(crate) const NO_PROGRESS_HELP: &str = "Show no progress";

pub(crate) const SHELL_EXPLAIN_HELP: &str =
    "Say on standard error what a fault or a refusal means, as a terminal does";

pub(crate) const SHELL_FILE_HELP: &str = "Run the lines of a file before those of standard input";

pub(crate) const IN_TURN_HELP: &str =
    "Let workers call in the order of the lines, one after the other";

pub(crate) const VERBOSE_HELP: &str =
    "Say on standard error what failed where the exit status is 3";

/// The commands of a workload, with an example of each.
pub const LANGUAGE: &str =
    "A workload has one command a line. Empty lines and lines that begin with # are ignored.

Tables:
  create T F          make table T; F has k for each key column, v for another: create t kv
  commit OP ; OP ..   commit a transaction: commit insert t (1,'x') ; delete t key(2)
  commitat N OP ..    commit one that was made on version N: commitat 2 insert t (1,'x')
  get T REF           read a row: get t key(1)
  scan T              read all rows: scan t
  tables              list the tables, with their columns and how many rows they have
  dump                print all tables as one changeset, which makes them of nothing
  save B              save all tables under a name: save old
  databases           list what is saved
  dropdatabase B      drop a saved database: dropdatabase old
Transactions over several lines, in a shell and without --threads:
  begin               begin one on a snapshot; then OP alone, as insert t (1,'x'), is made in it,
                      and get and scan read what stands in it
  savepoint           make a savepoint; its reply has its number
  rollback to N       undo what was made since: rollback to 0
  rollback            undo all of it
  end                 commit it, unless what it looked at has changed
Sessions:
  session             make a session, which records changes; its reply has its number
  sessions            list the sessions, with their flags and tables
  drop S              end a session: drop 1
  attach S T          let a session record changes to a table: attach 1 t
  attachall S         let it attach each table that changes: attachall 1
  filter S F          let it attach only tables of some names: filter 1 not is audit
  enable S X          record or not, or only ask: enable 1 off, enable 1 ask
  indirect S X        mark what is recorded as indirect or not: indirect 1 on
  isempty S           ask whether nothing was recorded: isempty 1
  diff S B T          record how a table differs from a saved one: diff 1 old t
Changes:
  changeset S         print a session's changes, with old values: changeset 1
  patchset S          print them without old values: patchset 1
  restart S           print them as changeset does, and forget them: restart 1
  .. S places         each, with key flags as SQLite's own applier wants them: changeset 1 places
  apply x'..' D N C   apply a changeset or patchset; D, N and C say omit, replace or abort, for
                      rows that differ, are missing, or are there already:
                      apply x'5402..' omit omit replace
  .. D N C report     print each conflict too, each omitted change and each skipped group
  .. D N C buffer     print its buffer too, which `changecap rebase` reads
  .. filter F         apply only to tables of some names; it is the last of the line:
                      apply x'5402..' omit omit replace report filter is t
  applyquiet S,.. ..  the same, of which the sessions S,.. record nothing:
                      applyquiet 1,2 x'5402..' omit omit replace
  applyeach x'..'     stop at each conflict and show it, in a shell and without --threads; with
                      filter F at its end, of these tables: applyeach x'5402..'
  omit replace abort  answer the conflict, and go on to the next one
  put (V,..)          let this row stand there instead: put (1,'both'); end then commits the
                      application, and rollback undoes it

OP is insert T (V,..), update T REF set I = V , .. or delete T REF; cascade before it marks it as
indirect. REF is key(V,..), or loose N for the row without a key that has the number N. V is null, 1,
'text' or x'00ff'; I is a column's number, from 0. F in filter is all, nothing, is W, starts W, ends W,
not F, and(F,..) or or(F,..).

A line may begin with @K, K from 0 to 63, and then belongs to worker K mod N:
@1 commit insert t (2,'y'). Workers do not wait for each other, or with --in-turn each line for those
before it. Replies are printed in the order of the lines.

The whole input is read first. Nothing runs before its end, or where one of its lines is refused.";

pub(crate) const SHELL_EXAMPLE: &str =
    "The lines are those of a workload: `changecap run --help` has every command. Each line runs before the
next one is read. For example
    printf '%s\\n' 'create t kv' 'comit insert t (1)' \"commit insert t (1,'x')\" | changecap shell
prints
    ok version 1
    line 2: G1 Syntax at 0
    ok version 2
of which the second line is on standard error. A line that is refused changes nothing, and the next one is
read. A line that begins with @K is run as any other. At a terminal there is a prompt on standard error.
The end of the input ends the shell, with status 0.

These lines are for the shell itself:
  help [WORD]         print the commands, or what that says of a word: help commit
  .read FILE          run the lines of a file
  .load FILE          make the tables and rows of the dump in a file
  quit                end the shell

With history and keys to edit a line: rlwrap changecap shell";

pub(crate) const SHOW_EXAMPLE: &str =
    "The digits may be of either case and end with a line feed. For example
    echo 5402010074001200010000000000000001030178 | changecap show
prints
    changeset
    group t kv
    insert direct (1,'x')
With --sql it prints
    BEGIN;
    INSERT INTO \"t\" VALUES(1,'x');
    COMMIT;
and with --json
    [{\"table\":\"t\",\"op\":\"insert\",\"indirect\":false,\"key\":[\"c0\"],\"new\":{\"c0\":1,\"c1\":\"x\"}}]
With --jsonl each object has a line. With --columns t=id,name the columns have these names in place of c0 and
c1, here with --sql:
    INSERT INTO \"t\"(\"id\",\"name\") VALUES(1,'x');
An undefined field is left out of both, and a blob in JSON is {\"blob\":\"00ff\"}.";

pub(crate) const INVERT_EXAMPLE: &str =
    "The digits may be of either case and end with a line feed. For example
    echo 5402010074001200010000000000000001030178 | changecap invert
prints
    5402010074000900010000000000000001030178
which deletes the row that the changeset inserts. A patchset has no inverse and is refused.";

pub(crate) const PATCHSET_EXAMPLE: &str =
    "The digits may be of either case and end with a line feed. For example
    echo 5402010074000900010000000000000001030178 | changecap patchset
prints
    5002010074000900010000000000000001
which deletes the row by its key alone. A patchset is refused.";

pub(crate) const CONCAT_EXAMPLE: &str = "Each line is a blob in digits of either case. For example
    printf '%s\\n' 5402010074001200010000000000000001030178 \\
        540201007400170001000000000000000103017800030179 | changecap concat
prints
    5402010074001200010000000000000001030179
which inserts the row as the second changeset leaves it. A changeset beside a patchset is refused, and so
are two tables of one name with different columns. With --binary each blob of the input stands behind its
length as eight bytes, the most significant first.";

pub(crate) const REBASE_EXAMPLE: &str =
    "The first line is a changeset of local changes, and each other line the buffer of an application of
remote changes, which `apply .. buffer` of a workload prints, in digits of either case. For example
    printf '%s\\n' 5402010074001200010000000000000001030178 \\
        5402010074001200010000000000000001030179 | changecap rebase
prints
    540201007400170001000000000000000103017900030178
which updates the row that was inserted remotely to what the local changeset inserts. A patchset is
refused, and so are two tables of one name with different columns. With --binary each blob of the input
stands behind its length as eight bytes, the most significant first.";

pub(crate) const CHECK_ABOUT: &str = "Say whether blobs are well formed, and where not";

pub(crate) const CHECK_EXAMPLE: &str = "For example
    printf 5402010074001200 > cut.hex; changecap check cut.hex
prints on standard error
    cut.hex: fault D1 Truncated at 8: 54 02 01 00 74 00 12 00 |
with the bytes before the fault, and behind the bar those from there on. The status is then 1. A blob that
is well formed has its kind, its groups, its changes and its bytes on a line.";

pub(crate) const SUMMARY_ABOUT: &str = "Count the changes of blobs, table by table";

pub(crate) const SUMMARY_EXAMPLE: &str = "For example
    echo 5402010074001200010000000000000001030178 | changecap summary -
prints
    t: inserts 1, updates 0, deletes 0, indirect 0, bytes 20";

pub(crate) const FILE_HELP: &str =
    "The file that is read, or - for standard input; a blob in it is hex digits or bytes";

pub(crate) const FILES_HELP: &str =
    "The files that are read, or - for standard input; each has a blob, as hex digits or as bytes";

pub(crate) const OUTPUT_HELP: &str =
    "The file that is written; it is as it was where anything fails";
