//! What the help says.

pub const VERSION: &str = "1.0.0";

pub const ABOUT: &str = "\
Reads a makefile as POSIX `make` does, and says what a build of it does, with a view to `make -j`.";

pub const DETAILS: &str = "\
`race check` says whether the recipes of a build may run in parallel, or which two of them race.
`race list` lists all races of a build, and `race fix` prints the makefile lines that make it safe.
`race missing` lists what can go wrong in a tree that was built before.
`race order` prints the serial order of a build. `race verify` says whether a proof is good for a
build: where it accepts a certificate, every run of the recipes leaves the same files.
`race replay` says whether a log of a build is a run that `make -j` may make. `race serialise`
writes the log of a parallel build as that of the same build with one job. `race order` and
`race replay` end with 0 also on a build whose recipes race.

With --tasks TASKS `check`, `list`, `fix`, `missing` and `verify` take tasks that another tool
knows, such as a recorder of builds, in place of a makefile.

Statuses:
  0  check: the build is safe; list: there is no race; fix: the build is safe with the lines;
     missing: nothing is listed; order: the order is printed; verify: the proof is accepted;
     replay: the log is a run, complete or not; serialise: the new log is printed; the help or the
     version is printed
  1  check: two recipes race; list: there are races; fix: no lines fix the build; missing:
     something is listed, or two recipes race; verify: the proof is not accepted; replay: the log
     is no run; serialise: it is none or not complete, recipes race, or its times are too large
  2  the inputs are refused: the report says where and why, and standard error says it in words
  3  a file cannot be read or written, memory runs out, or the command line is invalid: a line on
     standard error says which";

pub const MAKEFILE: &str = "The makefile";

pub const LISTING: &str = "The paths that are there before the build, one a line";

pub const ROOT: &str = "The folder of all other paths, absolute, such as --root \"$PWD\"";

pub const BASE: &str = "A makefile whose rules and macros come before those of MAKEFILE";

pub const POSIX_BASE: &str = "The rules and macros that POSIX.1-2024 lists, in place of --base";

pub const INCLUDES: &str = "The paths of the texts that include lines may name, one a line";

pub const QUIET: &str = "Write nothing beside the answer: no note, no words on a refusal";

pub const OPERANDS: &str = "A goal, which is to be built, or NAME=VALUE, which defines a macro";

pub const ORDER_ABOUT: &str =
    "Prints the serial order of a build: each file after all that it needs.";

pub const ORDER_DETAILS: &str = "\
MAKEFILE is the path of a makefile, and BASE of one that is read before it; with --posix-base that
is the one that the standard lists, which is built in. LISTING is the path of a file that names
the files that are there before the build, one path a line. Paths that are not absolute are below
DIR, which has to be absolute: --root \"$PWD\". An OPERAND that holds `=` defines a macro; any other
is a goal. Without a goal the first target of BASE and then of MAKEFILE is built whose name does
not begin with a period, or holds a slash.

An include line takes its texts from FILE alone, which names them, one path a line, empty lines
skipped. Each is opened as it is written there, and is the text of that path below DIR. They are
read before all other files.

Each line that comes out is `NUMBER KIND NAME`, and ` : NAME ..` where the file needs others. KIND
is `recipe` (a rule with commands makes it), `inferred` (an inference rule does), `default` (the
commands of .DEFAULT do) or `plain` (it is there, or nothing is run for it). Inputs that are
refused give `refused`, the fault, its place and names.

Example:
  $ printf 'prog: a.o\\n\\tcc -o prog a.o\\na.o: a.c\\n\\tcc -c a.c\\n' > makefile
  $ echo a.c > listing
  $ race order --makefile makefile --listing listing --root \"$PWD\"
  0 plain a.c
  1 recipe a.o : a.c
  2 recipe prog : a.o

Statuses:
  0  the order is printed, whether or not the recipes race
  2  the makefile, the base, an included text, the listing, the root or an operand is refused
  3  a file cannot be read or written, memory runs out, or the command line is invalid
";

pub const CHECK_ABOUT: &str =
    "Says whether the recipes of a build may run in parallel, or which two of them race.";

pub const CHECK_DETAILS: &str = "\
MAKEFILE, BASE, FILE, LISTING, DIR and the operands are those of `race order`. FOOTPRINTS is the
path of a file that has for each recipe that may run an object of JSON on a line of its own: its
target, and the paths that it reads and writes, where a path that ends in `/` stands for all that
is below it too.

`safe`: any two recipes that touch one file, which one of them writes, are put in order by
prerequisites. However many recipes `make -j` runs at once, it leaves the same files as one recipe
at a time, as far as FOOTPRINTS says all that the recipes read and write. Then come the numbers of
nodes, of recipes that may run, of those that cannot, of .WAIT and of the pairs in question, and
for each pair a line `order PATH : NAME NAME ..` with the prerequisites that put it in order.

`race`: two recipes touch one file, one of them writes it, and nothing keeps them apart. After the
numbers come the PATH, what the two do to it, and how they come to run at once: the times of the
files that are there, and then what is skipped, starts and finishes. Name the one as a
prerequisite of the other, or let each have a file of its own.

`refused`: the inputs have a fault; its name, its place and names follow, and a line on standard
error says it in words. docs/FAULTS.md has what each means.

With --print-proof the certificate or the trace comes in place of the report, as `race verify`
reads it.

With --short the chains of neighbours alone come out, in the report and in the certificate: of two
recipes that conflict where no row of conflicts leads from the first over a third to the second.
They put all others in order too, and are far fewer where many recipes share a file. `pairs` then
counts them, and `race verify --short` reads the certificate.

Where FOOTPRINTS has a target that is a file of the build, and nothing makes it here, a note on
standard error says so: a base or an included text may be missing. With --strict that is refused.

With --tasks TASKS, which stands in place of MAKEFILE, LISTING, BASE, FILE, FOOTPRINTS and the
operands, tasks are checked that another tool knows. TASKS is the path of a file that has for each
task an object of JSON on a line of its own: its label, the labels of earlier tasks that have to
end before it starts, and the paths that it reads and writes. Each task runs. Where a name would
stand, its label stands in the report. docs/FORMATS.md has how to write them.

`safe` rests on premises that race cannot see:
  - the makefile, the base, the goals and the macros are those of the build;
  - LISTING has just the files that are there when the build begins;
  - FOOTPRINTS says all that each recipe reads and writes;
  - a recipe that reads the same bytes writes the same: `a: ; date > a` does not, and is `safe`;
  - two names are two files, and a file that is written is newer than all others.

Example, a header that is generated, and used by a recipe that does not say so:
  $ printf 'all: gen.h a.o\\ngen.h: gen.sh\\n\\tsh gen.sh\\na.o: a.c\\n\\tcc -c a.c\\n' > makefile
  $ printf 'gen.sh\\na.c\\n' > listing
  $ echo '{\"target\":\"gen.h\",\"reads\":[\"gen.sh\"],\"writes\":[\"gen.h\"]}' > footprints
  $ echo '{\"target\":\"a.o\",\"reads\":[\"a.c\",\"gen.h\"],\"writes\":[\"a.o\"]}' >> footprints
  $ race check --makefile makefile --listing listing --root \"$PWD\" --footprints footprints
  race
  nodes 5
  recipes 2
  idle 0
  waits 0
  path gen.h
  first gen.h writes
  second a.o reads
  time gen.sh 5
  time a.c 3
  skip gen.sh
  skip a.c
  start gen.h
  start a.o
  $ echo 'a.o: gen.h' >> makefile
  $ race check --makefile makefile --listing listing --root \"$PWD\" --footprints footprints
  safe
  nodes 5
  recipes 2
  idle 0
  waits 0
  pairs 1
  order gen.h : gen.h a.o

Statuses:
  0  the build is safe: `make -j` may be used on it, where the premises hold
  1  two recipes race: fix the makefile, and check again
  2  the makefile, the base, an included text, the listing, the root, an operand or the footprints
     is refused, or more than 1,000,000 pairs of recipes conflict, with --short of neighbours: fix
     what the report names
  3  a file cannot be read or written, memory runs out, or the command line is invalid: nothing is
     known about the build
";

pub const LIST_ABOUT: &str = "Lists all races of a build, one a line.";

pub const LIST_DETAILS: &str = "\
MAKEFILE, BASE, FILE, LISTING, DIR and the operands are those of `race order`, and FOOTPRINTS is
that of `race check`, which shows how the first of the races comes about.

With --tasks TASKS the races of these tasks are listed, as `race check` reads them.

What comes out is the number of races, those of nodes, of recipes that may run, of those that
cannot, of .WAIT and of the pairs that share a file which one of them writes, and for each race a
line `race PATH : NAME DOES NAME DOES`: a path that both touch, the two, and what each does with
it, `reads` or `writes`. Inputs that are refused give `refused`, the fault, its place and names.
The note and --strict are those of `race check`.

Example, an object that uses a header, which another recipe generates, and does not say so:
  $ printf 'all: gen.h a.o\\ngen.h:\\n\\tsh gen.sh\\na.o: a.c\\n\\tcc -c a.c\\n' > makefile
  $ echo a.c > listing
  $ echo '{\"target\":\"gen.h\",\"reads\":[],\"writes\":[\"gen.h\"]}' > footprints
  $ echo '{\"target\":\"a.o\",\"reads\":[\"a.c\",\"gen.h\"],\"writes\":[\"a.o\"]}' >> footprints
  $ race list --makefile makefile --listing listing --root \"$PWD\" --footprints footprints
  races 1
  nodes 4
  recipes 2
  idle 0
  waits 0
  pairs 1
  race gen.h : gen.h writes a.o reads

Statuses:
  0  no two recipes race
  1  some do
  2  the makefile, the base, an included text, the listing, the root, an operand or the footprints
     is refused, or more than 1,000,000 pairs of recipes conflict
  3  a file cannot be read or written, memory runs out, or the command line is invalid
";

pub const MISSING_ABOUT: &str = "Lists what can go wrong in a tree that was built before.";

pub const MISSING_DETAILS: &str = "\
MAKEFILE, BASE, FILE, LISTING, DIR and the operands are those of `race order`, and FOOTPRINTS is
that of `race check`. LISTING is that of a clean tree.

In a tree that was built before `make` runs only recipes whose targets are out of date. A recipe
that reads a file which none of its prerequisites stands for does not run again when that file is
edited, with one job as with eight.

What comes out is how many there are of each kind, how many inputs are unlisted, how many races,
nodes, recipes that may run, recipes that cannot and .WAIT there are, and then a line for each of
these kinds. NAME and NODE are files of the build:
  missing PATH : NAME reads                NAME may stay old after an edit of PATH
  missing PATH : NAME reads NODE writes    the same, and NODE writes PATH last
  late PATH : NAME reads NODE writes       NODE writes PATH, and may do so after NAME
  shared PATH : NAME writes NODE writes    NODE writes PATH last, and may not run when NAME does
  present NAME                             a recipe makes NAME, and LISTING has it
  tree PATH : NODE writes                  NODE may write all below the folder PATH: no footprint
                                           shows that it removes what stood there
  plan NAME                                a second build, which finds what the first one made,
                                           lacks NAME or makes it in another way: an inference rule
                                           may find another source
  plan : refused                           the second build is refused
Behind a line may stand `add NAME: PATH` or the like: put that prerequisite into MAKEFILE, and ask
again. `race list` shows the races. An input is unlisted where LISTING does not have the file and no
recipe makes it, such as a header that a compiler looks for in each folder before its own, or a
system header that LISTING leaves out. No line names it. Inputs that are refused give `refused`, the
fault, its place and names. The note and --strict are those of `race check`.

With --tasks TASKS, which stands in place of MAKEFILE, BASE, FILE, FOOTPRINTS and the operands, the
same is said of tasks. A line of TASKS then has two keys more: `makes`, the file of its task, and
`needs`, the files that make it run where they are newer. A task without them always runs. Behind
`add NAME: PATH` put PATH into `needs` of the task that makes NAME. docs/FORMATS.md has the lines.

A status of 0 means:
  - edit the sources and build, as often as you like: the files are those of a clean build;
  - so they are with any number of jobs, and no `make clean` is needed;
  - this is proved, where the premises hold.
The premises are those of `race check`, and for each build these: it runs to its end, and from the
same MAKEFILE; a recipe looks at what it may write only after it wrote it, and writes or removes
all that stood there; only sources are edited, and are newer than all files then; unlisted inputs
never change, and absent ones stay absent. docs/THEOREM.md has them all.

Example, an object that uses a header, and does not say so:
  $ printf 'a.o: a.c\\n\\tcc -c a.c\\n' > makefile
  $ printf 'a.c\\na.h\\n' > listing
  $ echo '{\"target\":\"a.o\",\"reads\":[\"a.c\",\"a.h\"],\"writes\":[\"a.o\"]}' > footprints
  $ race missing --makefile makefile --listing listing --root \"$PWD\" --footprints footprints
  missing 1
  late 0
  shared 0
  present 0
  tree 0
  unlisted 0
  races 0
  nodes 2
  recipes 1
  idle 0
  waits 0
  missing a.h : a.o reads
  add a.o: a.h

Statuses:
  0  nothing is listed, and no two recipes race
  1  something is listed, or two recipes race
  2  the makefile, the base, an included text, the listing, the root, an operand, the footprints or
     the tasks are refused, or more than 1,000,000 pairs of recipes conflict
  3  a file cannot be read or written, memory runs out, or the command line is invalid
";

pub const FIX_ABOUT: &str =
    "Prints the makefile lines that make a build safe, which it has proved.";

pub const FIX_DETAILS: &str = "\
MAKEFILE, BASE, FILE, LISTING, DIR and the operands are those of `race order`, and FOOTPRINTS is
that of `race check`.

What comes out goes behind MAKEFILE: `race fix .. >> makefile`. Each line `NAME: NAME # REMARK`
makes the second of two recipes that race wait for the first. The build as it is needs each of
these edges. race reads the makefile with the lines again, and prints them only where that build is
safe, and no recipe changes except the prerequisites in the lines. A file without a recipe may get
one by inference, which may make a line needless. Where the build is safe nothing comes out.

Where no lines do that, comments alone come out: `# not fixed`, and for each line that is needed
`# needs NAME NAME`, with `default` where .DEFAULT makes the first name, which no line can change,
`exists` where an inference rule makes it, which a line may change, and `name` where a name cannot
be written in a makefile. Give such a file a rule of its own. So look at the status first.

The lines rest on the premises of `race check`, also for the recipes as they then are: $^ and $?
gain a word. A file that depends on a folder or a phony target is made more often. The note and
--strict are those of `race check`.

With --print-proof the certificate of the build with the lines comes out in their place.

With --tasks TASKS the fix of these tasks is printed, as `race check` reads them. A line then has
labels: the first task has to wait for the second. Nothing reads these lines: write them into the
tasks. Where the tasks would have more than 200,000 edges, `# not fixed` and `# needs` come out.

Example, an object that uses a header, which another recipe generates, and does not say so:
  $ printf 'all: gen.h a.o\\ngen.h:\\n\\tsh gen.sh\\na.o: a.c\\n\\tcc -c a.c\\n' > makefile
  $ echo a.c > listing
  $ echo '{\"target\":\"gen.h\",\"reads\":[],\"writes\":[\"gen.h\"]}' > footprints
  $ echo '{\"target\":\"a.o\",\"reads\":[\"a.c\",\"gen.h\"],\"writes\":[\"a.o\"]}' >> footprints
  $ race fix --makefile makefile --listing listing --root \"$PWD\" --footprints footprints
  # race fix: lines 1
  a.o: gen.h # reads gen.h

Statuses:
  0  the build is safe with the lines, or without any where none comes out
  1  it needs prerequisites that no lines give it
  2  the makefile, the base, an included text, the listing, the root, an operand or the footprints
     is refused, or more than 1,000,000 pairs of recipes conflict
  3  a file cannot be read or written, memory runs out, or the command line is invalid
";

pub const FIX_PROOF: &str = "Print the certificate of the fixed build in place of the lines";

pub const STRICT: &str = "Refuse footprints whose target is a file that nothing makes here";

pub const SHORT: &str = "Give the chains of neighbours alone, which put all others in order";

pub const SHORT_PROOF: &str = "Take a certificate that has the chains of neighbours alone";

pub const PRINT_PROOF: &str = "Print the certificate or the trace in place of the report";

pub const VERIFY_ABOUT: &str =
    "Says whether a proof is good: that recipes may run in parallel, or that two race.";

pub const VERIFY_DETAILS: &str = "\
MAKEFILE, BASE, FILE, LISTING, DIR and the operands are those of `race order`, and FOOTPRINTS is
that of `race replay`. PROOF is the path of a certificate or a trace, by the numbers that
`race order` prints.

A certificate has, for each two recipes that touch one file which one of them writes, a chain of
prerequisites from the one to the other. Where it is accepted, every run of the recipes leaves the
same files, whatever runs at once, as far as FOOTPRINTS says all that they read and write. A trace
leads to two such recipes that run at once.
  certificate COUNT      trace FIRST SECOND
  NODE NODE ..           path HEX
  ..                     time NODE TIME        for each file of LISTING that is a node
                         skip NODE             start NODE and finish NODE likewise
                         end

With --short the chains of neighbours are enough, as `race check --short` gives them. A trace is
judged as ever.

With --tasks TASKS the proof is judged for these tasks, as `race check` reads them. Then NODE is the
number of a task, the first being 0, and there are no times.

The certificate rests on premises that race cannot see:
  - the makefile, the base, the goals and the macros are those of the build;
  - LISTING has just the files that are there when the build begins;
  - FOOTPRINTS says all that each recipe reads and writes;
  - a recipe that reads the same bytes writes the same: `a: ; date > a` does not;
  - two names are two files, and a file that is written is newer than all others.

What comes out is `accepted` or `not accepted`. Inputs that are refused give `refused`, the fault,
its place and names. The note and --strict are those of `race check`.

Example:
  $ printf 'all: x y\\nx: s\\n\\tc\\ny: s x\\n\\tc\\n' > makefile
  $ echo s > listing
  $ echo '{\"target\":\"x\",\"reads\":[\"s\"],\"writes\":[\"x\"]}' > footprints
  $ echo '{\"target\":\"y\",\"reads\":[\"s\",\"x\"],\"writes\":[\"y\"]}' >> footprints
  $ printf 'certificate 1\\n1 2\\n' > proof
  $ race verify --makefile makefile --listing listing --root \"$PWD\" \\
      --footprints footprints --proof proof
  accepted

Statuses:
  0  the proof is accepted
  1  it is not
  2  the makefile, the base, an included text, the listing, the root, an operand, the footprints
     or the proof is refused
  3  a file cannot be read or written, memory runs out, or the command line is invalid
";

pub const PROOF: &str = "A certificate or a trace, by the numbers of `race order`";

pub const REPLAY_ABOUT: &str =
    "Says whether a log of a build is a run that `make -j` may make, and what it leaves.";

pub const REPLAY_DETAILS: &str = "\
MAKEFILE, BASE, FILE, LISTING, DIR and the operands are those of `race order`. FOOTPRINTS is the
path of a file that has for each recipe that may run an object of JSON on a line of its own: its
target, and the paths that it reads and writes, where a path that ends in `/` stands for all that
is below it too. LOG is the path of a file that has first an object for each file that is there,
and these are the files of LISTING, and then one for each event, in the order in which they
happened. PATH and NODE are paths, NODE that of a file of the build; HEX is what a file holds, in
lower case hexadecimal; TIME is a whole number.
  {\"do\":\"file\",\"path\":PATH,\"bytes\":HEX,\"time\":TIME}              a file that is there, of that time
  {\"do\":\"skip\",\"node\":NODE}                                      NODE stays; start, finish: it runs
  {\"do\":\"look\",\"node\":NODE,\"path\":PATH,\"bytes\":HEX}              it reads PATH; null: nothing there
  {\"do\":\"put\",\"node\":NODE,\"path\":PATH,\"bytes\":HEX,\"time\":TIME}   it writes PATH, later than others
  {\"do\":\"erase\",\"node\":NODE,\"path\":PATH}                         it removes PATH

What comes out is `allowed complete`, or `allowed incomplete` where some NODE was neither skipped
nor finished, and for each file that is then there a line `file NAME TIME HEX`, where HEX is `-`
for a file without bytes. A log that is no run gives `not allowed NUMBER WORD at PLACE`: why, and
which event, counted from 1, or 0 where the files are not those of LISTING. Inputs that are
refused give `refused`, the fault, its place and names. The note and --strict are those of
`race check`.

Example:
  $ printf 'a.o: a.c\\n\\tcc -c a.c\\n' > makefile
  $ echo a.c > listing
  $ echo '{\"target\":\"a.o\",\"reads\":[\"a.c\"],\"writes\":[\"a.o\"]}' > footprints
  $ echo '{\"do\":\"file\",\"path\":\"a.c\",\"bytes\":\"61\",\"time\":1}' > log
  $ echo '{\"do\":\"skip\",\"node\":\"a.c\"}' >> log
  $ echo '{\"do\":\"start\",\"node\":\"a.o\"}' >> log
  $ echo '{\"do\":\"look\",\"node\":\"a.o\",\"path\":\"a.c\",\"bytes\":\"61\"}' >> log
  $ echo '{\"do\":\"put\",\"node\":\"a.o\",\"path\":\"a.o\",\"bytes\":\"6f67\",\"time\":2}' >> log
  $ echo '{\"do\":\"finish\",\"node\":\"a.o\"}' >> log
  $ race replay --makefile makefile --listing listing --root \"$PWD\" \\
      --footprints footprints --log log
  allowed complete
  file a.c 1 61
  file a.o 2 6f67

Statuses:
  0  the log is a run, complete or not, whether or not the recipes race
  1  it is not
  2  the makefile, the base, an included text, the listing, the root, an operand, the footprints
     or the log is refused
  3  a file cannot be read or written, memory runs out, or the command line is invalid
";

pub const SERIALISE_ABOUT: &str =
    "Writes the log of a parallel build as the log of the same build with one job.";

pub const SERIALISE_DETAILS: &str = "\
The files and options are those of `race replay`. LOG has to be a whole build, in which every NODE
was skipped or finished, and no two recipes may race. What comes out is a log again: the same
files, and then node after node in the order of `race order` all that the node did, in its old
order. The first put has the time behind the greatest of the files, and each further put the next.

The new log is a build with one job from the same files. In it the same recipes run, each looks at
the same bytes and writes the same, and the files end with the same bytes. So what went wrong in
the parallel build goes wrong in this one, where one recipe can be watched at a time.

A log that is no run gives the line of `race replay`, one of a build that is not whole
`not complete`. Where two recipes race, `race`, the number of nodes, of recipes that may run, of
those that cannot and of .WAIT, then the path on which two of them meet, both recipes, and the
times and steps that lead to their running at once. `not complete: times too large` stands where
there is no number left for the times of new puts. Inputs that are refused give `refused`, the
fault, its place and names. The note and --strict are those of `race check`.

Example, in the log of two jobs `b` starts and ends before `a` has written:
  $ printf 'all: a b\\na:\\n\\tdate >a\\nb:\\n\\tdate >b\\n' > makefile
  $ : > listing
  $ echo '{\"target\":\"a\",\"reads\":[],\"writes\":[\"a\"]}' > footprints
  $ echo '{\"target\":\"b\",\"reads\":[],\"writes\":[\"b\"]}' >> footprints
  $ echo '{\"do\":\"start\",\"node\":\"a\"}' > log
  $ echo '{\"do\":\"start\",\"node\":\"b\"}' >> log
  $ echo '{\"do\":\"put\",\"node\":\"b\",\"path\":\"b\",\"bytes\":\"3131\",\"time\":7}' >> log
  $ echo '{\"do\":\"finish\",\"node\":\"b\"}' >> log
  $ echo '{\"do\":\"put\",\"node\":\"a\",\"path\":\"a\",\"bytes\":\"3132\",\"time\":9}' >> log
  $ echo '{\"do\":\"finish\",\"node\":\"a\"}' >> log
  $ echo '{\"do\":\"skip\",\"node\":\"all\"}' >> log
  $ race serialise --makefile makefile --listing listing --root \"$PWD\" \\
      --footprints footprints --log log --limit 2
  {\"do\":\"start\",\"node\":\"a\"}
  {\"bytes\":\"3132\",\"do\":\"put\",\"node\":\"a\",\"path\":\"a\",\"time\":1}
  {\"do\":\"finish\",\"node\":\"a\"}
  {\"do\":\"start\",\"node\":\"b\"}
  {\"bytes\":\"3131\",\"do\":\"put\",\"node\":\"b\",\"path\":\"b\",\"time\":2}
  {\"do\":\"finish\",\"node\":\"b\"}
  {\"do\":\"skip\",\"node\":\"all\"}

Statuses:
  0  the new log is printed
  1  the log is no run, or not complete, or its recipes race, or its times are too large
  2  the makefile, the base, an included text, the listing, the root, an operand, the footprints
     or the log is refused, or more than 1,000,000 pairs of recipes conflict
  3  a file cannot be read or written, memory runs out, or the command line is invalid
";

pub const FOOTPRINTS: &str = "What the recipes read and write, one object of JSON a line";

pub const TASKS: &str = "What tasks wait for, read and write, one object of JSON a line";

pub const LOG: &str = "The files that are there and what happened, a JSON object a line";

pub const LIMIT: &str = "How many recipes may run at once, from 1 to 65535; without it 1";

pub const TIE: &str = "Files of equal times count as newer";
