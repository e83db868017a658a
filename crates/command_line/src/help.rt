//! The help of the commands.

/// The version of the program, and the kit and the logic in which it is proved, as `rt version` names them.
pub(crate) const VERSION: &str = "0.1.0 (proved with rattle-kit-13f logic dac8208d650f15bf)";

pub(crate) const BRIEF: &str =
    "Checks, draws and runs a plant, alone or on an image that lasts over any stop";

pub(crate) const ABOUT: &str =
    "Reads the text of a plant, and says what stands in it, draws it or runs it.

With an image, a file that holds what was fired, a plant goes on from there after any
stop: 'format' makes an image, 'run' runs the plant on it by a script, 'serve' runs it
line by line, and 'recover' tells where the plant stands. 'inspect' looks into an image,
'backup' copies it, and 'restate' writes the text of a plant that begins where the image
stands. 'migrate' brings an image of an earlier version over to a new one. 'explore' tries
a run with a power cut at each of its moments.

A plant is atoms (machines with places, variables and ports), connectors (which ports
move together, under which guards, and what data passes between them) and priorities
(what goes before what). Its text has a line for each part; examples/ has plants to
begin with.";

pub(crate) const AFTER: &str = "Exit status:
  0  what was asked for is done
  1  the plant, a pick, the script or the image is refused; the standard error has
     'plant line L: fault K NAME', 'error: FILE:LINE: WHY', 'script line L' or
     'image: refusal K NAME'; or 'explore' found what is not right, or 'trace' what
     must not hold
  2  the words of the command line were not understood
  3  a file ('file PATH'), the device below an image ('image: refusal 8 Disk'), the
     memory ('memory', 'plant line 0: fault 15 Memory' or 'image: refusal 9 Memory')
     or the standard output failed

Examples:
  bip_run trace examples/sample.plant 0 1 0 1
  bip_run format examples/sample.plant sample.image";

pub(crate) const CHECK_BRIEF: &str = "Counts the parts of a plant";

pub(crate) const CHECK_ABOUT: &str = "Counts the parts of a plant.

Prints one line: how many atoms, connectors, interactions and priority rules the plant
has. An interaction is a set of ports of one connector that may move together.

With --warn there is a line more for each thing that is allowed and probably a mistake, as
a port that no connector has, a place that is never marked, or a variable that nothing
reads.

With --all the first fault of each line is told, and not that of the first line alone. A
line with a fault counts as empty to the lines below it. So a line that names what such a
line declares has a fault too.";

pub(crate) const CHECK_AFTER: &str = "Example:
  bip_run check examples/sample.plant
prints
  atoms 2 connectors 2 interactions 2 rules 0

Exit status:
  0  the counts are printed, also where there are warnings
  1  the text is no plant; the standard error has 'plant line L: fault K NAME'
  2  the words of the command line were not understood
  3  a file ('file PATH'), the memory ('memory', or 'plant line 0: fault 15 Memory')
     or the standard output failed";

pub(crate) const CHOICES_BRIEF: &str = "Lists what a plant can fire next";

pub(crate) const CHOICES_ABOUT: &str =
    "Lists what a plant can fire next, from its first state or after some picks.

Fires the picks as 'trace' does, and prints a line for each choice that the plant then
has: the number by which a pick takes it, its connector, and each participant as
ATOM.PORT/TRANSITION. After the first 1000 choices the line 'more N' says how many others
there are. If nothing is possible, the line is 'stuck'. 'trace' tells of --picks and
--strict.";

pub(crate) const CHOICES_AFTER: &str = "Example:
  bip_run choices examples/sample.plant 0
prints what can be fired after the pick 0
  0 tick A.t/0
  1 send A.t/0 B.u/0
  bip_run choices examples/sample.plant --picks run.txt
lists what can be fired after the picks of a file.

Exit status:
  0  the choices are listed, also where there is none
  1  the text is no plant ('plant line L: fault K NAME' on the standard error), or a pick
     is refused ('error: FILE:LINE: WHY')
  2  the words of the command line were not understood
  3  a file ('file PATH'), the memory ('memory', or 'plant line 0: fault 15 Memory')
     or the standard output failed";

pub(crate) const WHY_BRIEF: &str = "Tells why a connector can't be fired next";

pub(crate) const WHY_ABOUT: &str =
    "Tells why a connector can't be fired next, in the first state or after some picks.

Fires the picks as 'trace' does. Then it prints, for each connector that has no choice, a
line for each reason: a port that offers nothing, a guard that is 0, or a connector that
has priority. Nothing is printed if each connector can be fired. 'trace' tells of --picks
and --strict.";

pub(crate) const WHY_AFTER: &str = "Example:
  bip_run why examples/light.plant
  bip_run why examples/light.plant --picks run.txt
tells it after the picks of a file.

Exit status:
  0  the reasons are printed, also where there is none to tell
  1  the text is no plant ('plant line L: fault K NAME' on the standard error), or a pick
     is refused ('error: FILE:LINE: WHY')
  2  the words of the command line were not understood
  3  a file ('file PATH'), the memory ('memory', or 'plant line 0: fault 15 Memory')
     or the standard output failed";

pub(crate) const TRACE_BRIEF: &str = "Runs a plant from its first state, and prints the run";

pub(crate) const TRACE_ABOUT: &str = "Runs a plant from its first state, and prints the run.

Prints a line for each pick: the number of the interaction that it fires, its connector,
and each participant as ATOM.PORT/TRANSITION. A pick takes the entry of the state's
choices at the pick modulo their number. Where nothing is possible the line 'stuck' is
printed, and the picks that follow are passed over. With --random N the picks are N random
ones; the same seed gives the same run. At the end there is a line for each
atom: its marked places, and its variables with their values.

With --picks the picks are the lines of a file: a number, or an interaction, as
'tick A.t/0'. An interaction is found by its names and the numbers of its transitions, so
it stays the same where an edit of the plant gives the choices other numbers, and each
transition keeps its own; where it can't be fired, it is refused, and the run ends there. A
line that begins with # and a line without words are passed over. With --random N too, the N
random picks come after those of the file. --save-picks writes such a file of what is
fired. With --strict a number past the list of choices is refused.

With --until EXPR and --never EXPR the run ends in the first state in which EXPR holds: the
first one of all, or one after a move. EXPR is written as in a guard. Its names are ATOM.VAR
for a variable, and 'at ATOM PLACE', which is 1 while the place is marked and else 0. It
holds where its value is not 0. EXPR may also be 'stuck', which holds where nothing is
possible. Behind the states the line 'reached N' then tells the number of the move, 0 for
the first state. What --never names must not hold: there the status is 1. Where several are
given, in any order, the first one that holds is told by its place, as 'reached N by K'.

With --weight NAME=W, given as often as wanted, a random pick takes a connector in
proportion to its weight among those that have a choice, and each choice of it alike: the
connector NAME has the weight W, from 0 to 1000, and each other one has 100. Where all that
have a choice have the weight 0, the run ends with the line 'stuck by weights'.

With --summary the run is counted and not printed: how many picks were fired, how often
each connector and each transition came, between which values each variable was, and at the
end what never came. With --seeds A..B too there is a run of N random picks for each seed
from A to B, both included: 1..100 is a hundred runs. They are counted together; a run that
got stuck or ended by --until or --never has a line that begins with its seed.

With --format csv the run is a table, with a row for each of these and a first row that
names the columns; with --format jsonl it is a JSON object on each line. Both tell the
values that each firing delivered, too. With --states the state is printed at the start
and after each firing, and not at the end alone: in a table it is a column for the places
of each atom, and one for each variable. With --format vcd the run is a value change dump,
which viewers of waves as GTKWave show over time.";

pub(crate) const TRACE_AFTER: &str = "Example:
  bip_run trace examples/sample.plant 0 1
prints
  1 tick A.t/0
  2 send A.t/0 B.u/0
  state A [s] n=2
  state B [s] m=1
and with --format csv
  kind,number,name,parts,values
  step,1,tick,A.t/0,
  step,2,send,A.t/0 B.u/0,B.m=1
  state,,A,s,n=2
  state,,B,s,m=1
  bip_run trace examples/sample.plant --random 100 --save-picks run.txt
  bip_run trace examples/sample.plant --picks run.txt
prints a random run, and the same run again from what was saved.
  bip_run trace examples/sample.plant --random 100 --never '< A.n B.m'
ends where B remembers more than A has counted, which never comes.
  bip_run trace examples/sample.plant --random 100 --weight tick=300
picks tick three times as often as send, where both are possible.
  bip_run trace examples/sample.plant --summary --random 100 --seeds 1..20
counts twenty random runs of 100 picks each.

Exit status:
  0  the run is printed or counted, also one that is stuck
  1  the text is no plant ('plant line L: fault K NAME' on the standard error), a pick is
     refused ('error: FILE:LINE: WHY'), or what --never names held ('reached N', and
     with --seeds 'seed S reached N')
  2  the words of the command line were not understood
  3  a file ('file PATH'), the memory ('memory', or 'plant line 0: fault 15 Memory')
     or the standard output failed";

pub(crate) const STEP_BRIEF: &str = "Runs a plant by hand, from its first state";

pub(crate) const STEP_ABOUT: &str = "Runs a plant by hand, from its first state.

Prints the line of each atom's state, and the choices as 'choices' lists them. Then it reads
commands from the standard input, one on each line, and answers each. Where that is no
terminal, the line 'end' follows each answer. PLANT is a file.

With --picks the run is taken up behind the picks of a file, which are fired first, and
FILE cannot be -; 'trace' tells of --picks and --strict. Where a pick is refused nothing is
printed, and no command is read.

  N           fires choice N
  fire NAME   fires the connector's choice, if it has just one
  back        takes the last firing back
  random N    fires N random choices
  until NAME  fires random choices until it can be fired; until NAME N, at most N
  why NAME    tells why the connector can't be fired; why alone, of each connector
  state       shows the state and the choices again, as an empty line does
  save FILE   saves what was fired, to be repeated by trace PLANT --picks FILE
  help        lists the commands
  quit        ends, as the end of the input does";

pub(crate) const STEP_AFTER: &str = "Example:
  printf '0\\nquit\\n' | bip_run step examples/sample.plant
prints
  state A [s] n=0
  state B [s] m=0
  0 tick A.t/0
  1 send A.t/0 B.u/0
  end
  1 tick A.t/0
  state A [s] n=1
  state B [s] m=0
  0 tick A.t/0
  1 send A.t/0 B.u/0
  end
  end
  bip_run step examples/sample.plant --picks run.txt
takes a run up by hand behind the picks of a file.

Exit status:
  0  the commands are answered, also those that could not be followed
  1  the text is no plant ('plant line L: fault K NAME' on the standard error), or a pick
     of FILE is refused ('error: FILE:LINE: WHY')
  2  the words of the command line were not understood
  3  a file ('file PATH'), the memory ('memory', or 'plant line 0: fault 15 Memory')
     or the standard output failed";

pub(crate) const DRAW_BRIEF: &str = "Draws a plant, as a graph for Graphviz's dot";

pub(crate) const DRAW_ABOUT: &str = "Draws a plant, as a graph for Graphviz's dot.

Prints the text of a directed graph. Each atom is a frame with its places, its ports and
its transitions; a place that is marked at first is filled. Each connector is a rounded
box with its tree, its guards and its transfers, joined to its ports: by an arrow to a
trigger, and by a line that ends in a dot to any other. A priority is a dashed arrow from
the lower connector to the higher.

With --after or --picks the state after some picks is drawn, and each connector that can
then be fired is green; 'trace' tells of --picks and --strict. With --only some atoms are
drawn, and the connectors that join them. With --machines the atoms alone are drawn, as
state machines: each transition is an arrow between two places. With --outline there is
one node for each atom and for each connector, for large plants: it may go with --only.";

pub(crate) const DRAW_USAGE: &str = "bip_run draw [OPTIONS] <PLANT>";

pub(crate) const DRAW_AFTER: &str = "Example:
  bip_run draw examples/sample.plant | dot -Tsvg -o sample.svg
makes a picture of the plant. The program dot is part of Graphviz.
  bip_run draw examples/sample.plant --only A,B --after 0 1
draws both atoms in the state after two picks.
  bip_run draw examples/sample.plant --picks run.txt
draws the state after the picks of a file.
  bip_run draw examples/sample.plant --machines --only A
draws one atom as a state machine.

Exit status:
  0  the graph is printed
  1  the text is no plant ('plant line L: fault K NAME' on the standard error), or a pick
     is refused ('error: FILE:LINE: WHY')
  2  the words of the command line were not understood
  3  a file ('file PATH'), the memory ('memory', or 'plant line 0: fault 15 Memory')
     or the standard output failed";

pub(crate) const FORMAT_BRIEF: &str =
    "Makes an image of a plant, in which it stands in its first state";

pub(crate) const FORMAT_ABOUT: &str =
    "Makes an image of a plant, in which it stands in its first state.

An image is the file in which a plant is kept: it holds what was fired, so that each run
goes on where the one before it ended, whatever ended it. IMAGE is made where nothing is
there. A file that is there must have the size of the image, and loses all that it held;
with --new it is refused, and stays as it is.

The image has room for the records of N interactions, from 8 to 4096. It has 3 cells, 2
more for each atom, and one for each record, each of 1,024 bytes. Prints one line: how many
cells it has.";

pub(crate) const FORMAT_AFTER: &str = "Example:
  bip_run format examples/sample.plant sample.image --ring 8
prints
  formatted 15

Exit status:
  0  the image is formatted
  1  the text is no plant ('plant line L: fault K NAME' on the standard error), or IMAGE
     is a file of another size, which is left as it was ('image: refusal 4 WrongSize')
  2  the words of the command line were not understood
  3  a file ('file PATH'; 'file PATH in use' where another program has the image open;
     'file PATH is there' with --new), the device below the image ('image: refusal 8
     Disk'), the memory ('memory', 'plant line 0: fault 15 Memory' or 'image: refusal 9
     Memory') or the standard output failed";

pub(crate) const RUN_BRIEF: &str = "Runs a plant by a script, from where its image stands";

pub(crate) const RUN_ABOUT: &str = "Runs a plant by a script, from where its image stands.

A script has an event on each line. 'fire P' fires the entry of the state's choices at P
modulo their number, and 'fire send A.t/0 B.u/0' that very choice, if the plant has it
('refused 12 NotNow' if not); 'flush' has all that was fired saved in the image; 'ask ATOM' copies
the present state of the atom with that name, and 'put ATOM' has its last copy stored in
the image; 'save' stores all atoms that have moved since they were stored, as far as
'flush' has saved it; 'trim' drops the records that no restart needs, so that their room is
used again. A line without words asks for nothing.

Prints a line for each event. A fired interaction is told as 'trace' tells it, numbered
from the first that was ever fired on the image; 'flushed N' tells that all of them up to
number N are saved; 'asked ATOM C' and 'stored ATOM C' tell of a state that was copied and
of one that was stored, in which the atom has taken part C times; 'nothing ATOM' tells that
there was no copy to store; 'saved N ATOM ..' tells which atoms 'save' stored, with all up
to number N; 'base B' tells that the records before number B were dropped;
'refused K NAME' tells that nothing was done, and why. At the end there is a line for each
atom, as 'trace' prints it, and 'front F A B': the number of the last interaction that was
fired, of the last that is saved, and of the first whose record the image still holds.

What 'flushed N' tells of stays, whatever stops the program or the machine. What was fired
since may be lost, from the last one back.

An image holds as many records as its ring is long. Where it is full ('refused 4 RingFull'),
'flush', 'save' and 'trim'.

With --strict the first event that is refused ends the run, with status 1, and the standard
error names its line; the last lines come all the same. 'fire P' is then refused where P is
past the choices.

With --workers N, from 1 to 16, N threads share the events: thread number I takes those at I,
I + N, I + 2 N and so on, all counted from 0, and asks them in this order. 'ask ATOM' saves
the atom whole, 'begin P' fires as 'fire P' does and lets others fire while the participants
work, and 'put' and 'back' ask for nothing. Answers are not printed, and what is refused is
passed over. At the end come the same lines, and 'by T': how many interactions were fired.
So --strict and --workers exclude each other.

With --careful an image about which 'inspect' has a doubt is refused, with status 1, before
anything in it is changed.";

pub(crate) const RUN_AFTER: &str = "Example:
  printf 'fire 0\\nfire 1\\nflush\\n' | bip_run run examples/sample.plant sample.image -
prints, on an image that was formatted just before
  1 tick A.t/0
  2 send A.t/0 B.u/0
  flushed 2
  state A [s] n=2
  state B [s] m=1
  front 2 2 1

Exit status:
  0  the script was run to its end, also where the plant refused some of its events
  1  the plant, the script or the image is refused, and nothing was fired; the standard
     error has 'plant line L: fault K NAME', 'script line L' or 'image: refusal K NAME';
     or, with --strict, the plant refused an event, and no later one was asked
  2  the words of the command line were not understood
  3  a file ('file PATH'; 'file PATH in use' where another program has the image open),
     the device below the image ('image: refusal 8 Disk', or the lines 'refused 10 Disk'
     and 'refused 11 Broken' of a run), the memory ('memory', 'plant line 0: fault 15
     Memory' or 'image: refusal 9 Memory') or the standard output failed";

pub(crate) const RECOVER_BRIEF: &str = "Tells where a plant stands by its image";

pub(crate) const RECOVER_ABOUT: &str = "Tells where a plant stands by its image, after any stop.

Prints a line for each atom, its marked places and its variables with their values, and
'front F A B': the number of the last interaction that the image holds, twice, and of the
first whose record it still holds. Remains of what was never saved are cleared away.

With --careful an image about which 'inspect' has a doubt is refused, with status 1, before
anything in it is changed.";

pub(crate) const RECOVER_AFTER: &str = "Example:
  bip_run recover examples/sample.plant sample.image
prints, where tick, send, tick and send were saved
  state A [s] n=4
  state B [s] m=3
  front 4 4 1

Exit status:
  0  it is told where the plant stands
  1  the plant or the image is refused; the standard error has 'plant line L: fault K
     NAME' or 'image: refusal K NAME'
  2  the words of the command line were not understood
  3  a file ('file PATH'; 'file PATH in use' where another program has the image open),
     the device below the image ('image: refusal 8 Disk'), the memory ('memory', 'plant
     line 0: fault 15 Memory' or 'image: refusal 9 Memory') or the standard output failed";

pub(crate) const MIGRATE_BRIEF: &str = "Brings an image of an earlier version over to a new one";

pub(crate) const MIGRATE_ABOUT: &str = "Brings an image of an earlier version over to a new one.

An image of that version has cells of 512 bytes; the other commands refuse it as 'image:
refusal 2 OtherVersion'. The new image stands for the same state and the same number, and
the run goes on in it. OLD is only read, and stays whole, whatever stops the program. NEW
is made where nothing is there. A file that is there must have the size of the new image,
and loses all that it held.

The new image has room for the records of N interactions, from 8 to 4096, as 'format' has
it; that may be other than in OLD. It is started once, so that it is known to be whole.
Prints one line: the number of the last interaction that the image holds.

After a stop give the command again. Where it is refused, a file NEW that was not there
before may stand there, full of zeros.";

pub(crate) const MIGRATE_AFTER: &str = "Example:
  bip_run migrate examples/sample.plant old.image new.image --ring 8
prints, where tick, send, tick and send were saved in old.image
  migrated 4

Exit status:
  0  the new image is made
  1  the text is no plant ('plant line L: fault K NAME' on the standard error), OLD is
     refused ('image: refusal K NAME'), or NEW is a file of another size, which is left
     as it was ('new: refusal 2 NewSize')
  2  the words of the command line were not understood
  3  a file ('file PATH'; 'file PATH in use' where another program has the image open),
     the device below an image ('image: refusal 8 Disk' of OLD, 'new: refusal 3 NewDisk'
     of NEW), the memory ('memory', 'plant line 0: fault 15 Memory' or 'image: refusal 9
     Memory') or the standard output failed";

pub(crate) const EXPLORE_BRIEF: &str = "Tells what a power cut at each moment of a run leaves";

pub(crate) const EXPLORE_ABOUT: &str = "Tells what a power cut at each moment of a run leaves.

Formats an image in memory, runs the plant on it by the script, and counts the writes and
syncs of all that. Then it does the same again for each of them, with the power cut at
that very moment, and starts the plant from what the cut left. No file but PLANT and
SCRIPT is touched. A script is one of 'run'.

A cut is tried in four ways, by what becomes of each byte that was written and not yet
synced: 'Old', it is as it was before; 'New', as it was written; 'Gates', it is the byte
that tells that a cell is full; 'Mixed', new in each second cell, and old in the others.

What a cut left is right if the plant starts in the state after some of what was fired,
from the first on: after all that a flush told to be saved, at least. While the image is
formatted it may also read as never formatted. Prints one line: how many writes and syncs
there are to stop at, how many starts, and how many of these were not right.

With --list there is a line before for each start: which write or sync was cut, in which
way, the number of the last interaction that the plant starts with, and the number of the
last that was told to be saved. One that is not right begins with 'NOT RIGHT: '.

On a terminal the number of stops and starts is told first, and then how far it is.";

pub(crate) const EXPLORE_AFTER: &str = "Example:
  printf 'fire 0\\nflush\\n' | bip_run explore examples/sample.plant - --ring 8
prints
  stops 24 boots 96 bad 0

Exit status:
  0  all that was left is right
  1  something is not, or the plant or the script is refused; the standard error has
     'plant line L: fault K NAME' or 'script line L'
  2  the words of the command line were not understood
  3  a file ('file PATH'), the memory ('memory', or 'plant line 0: fault 15 Memory')
     or the standard output failed";

pub(crate) const SERVE_BRIEF: &str =
    "Lets another program drive a plant by lines, from where its image stands";

pub(crate) const SERVE_ABOUT: &str =
    "Lets another program drive a plant by lines, from where its image stands.

Prints the state of each atom, 'front F A B' and a line 'end'. Then it reads a line of the
standard input, does what that asks for, prints the answer and a line 'end', and reads the
next one. So the other program sends a line, and reads up to 'end'. A line is an event, as
in a script of 'run', or one of these:
  choices          the choices that the plant has, by their numbers
  state            the state of each atom, and 'front F A B'
  why [CONNECTOR]  why each connector can't be fired, or this one
  front            'front F A B'
  room             how much room there is for records, and which atoms take it
  save             stores the atoms that are behind, and drops what no restart needs
  quit             ends
A line that asks for nothing is answered by 'mistake WHY', and the next one is read.

At the end of the input, or at 'quit', it prints 'front F A B' and 'end'. It does not flush
of its own: what was fired and not flushed by then may be lost, as after any stop.

With --careful an image about which 'inspect' has a doubt is refused, with status 1, before
anything in it is changed.";

pub(crate) const SERVE_AFTER: &str = "Example:
  printf 'fire send A.t/0 B.u/0\\nflush\\n' | bip_run serve examples/sample.plant sample.image
prints, on an image that was formatted just before
  state A [s] n=0
  state B [s] m=0
  front 0 0 1
  end
  1 send A.t/0 B.u/0
  end
  flushed 1
  end
  front 1 1 1
  end

Exit status:
  0  the input was answered to its end, also where the plant refused some of its events
  1  the plant or the image is refused, and nothing was fired; the standard error has
     'plant line L: fault K NAME' or 'image: refusal K NAME'
  2  the words of the command line were not understood
  3  a file ('file PATH'; 'file PATH in use' where another program has the image open),
     the device below the image ('image: refusal 8 Disk', or the lines 'refused 10 Disk'
     and 'refused 11 Broken' of a run), the memory ('memory', 'plant line 0: fault 15
     Memory' or 'image: refusal 9 Memory') or the standard output failed";

pub(crate) const INSPECT_BRIEF: &str = "Looks into an image, and changes nothing in it";

pub(crate) const INSPECT_ABOUT: &str = "Looks into an image, and changes nothing in it.

Tells for which plant text the image was made, how long its ring is, which records it
holds, what is saved of each atom, and which atoms keep the oldest record from being
dropped. At the end stands what a start would come to: 'boots to L', or why it would be
refused. A line 'doubt: ..' tells of what a start passes over without a word. Of a damaged
image all is told that can be read.

The image is opened for reading alone, so it may stand where nothing can be written. No
other program may have it open to run a plant meanwhile.

With --records there is a line for each record that a start reads, and with --states one
for each saved state of each atom. With PLANT atoms and connectors have their names, if the
image was made for that text. Without it they have their numbers, and no start can be
judged: the last line is 'reads to L', where nothing is wrong whatever the plant.";

pub(crate) const INSPECT_AFTER: &str = "Example:
  bip_run inspect sample.image examples/sample.plant
prints, of an image that was formatted just before with --ring 8 (but for the dots, which
stand for the middle of the digest)
  image 9c7e1145..b2081b48 ring 8 cells 15
  base 1 last 0 live 0 free 8
  atom A saved 0 at 0 behind 0 holds -
  atom B saved 0 at 0 behind 0 holds -
  held
  boots to 0

Exit status:
  0  the image is told of, and nothing is wrong with it
  1  there is a refusal or a doubt in what is told, or PLANT is no plant ('plant line L:
     fault K NAME' on the standard error)
  2  the words of the command line were not understood
  3  a file ('file PATH'; 'file PATH in use' where another program has the image open),
     the device below the image ('image: refusal 8 Disk'), the memory ('memory', 'plant
     line 0: fault 15 Memory' or 'image: refusal 9 Memory') or the standard output failed";

pub(crate) const BACKUP_BRIEF: &str = "Copies an image into a new file";

pub(crate) const BACKUP_ABOUT: &str = "Copies an image into a new file.

IMAGE is only read, and no other program may have it open to run a plant meanwhile: so the
copy is of one moment. FILE is made, and must not be there. A file that is no image is
refused, and no FILE is made. Prints one line: how many cells were copied, and the number
of the last interaction that they hold.

When that line is printed the copy is on the disk, with its name. A stop before leaves a
FILE that reads as never formatted, or the whole copy: remove it, and copy again.

A copy that is run stands where the image stood. The real plant does not: bring it back to
that state first, or 'recover' tells of a state that is past.";

pub(crate) const BACKUP_AFTER: &str = "Example:
  bip_run backup sample.image sample.copy
prints, where tick, send, tick and send were saved
  copied 15 front 4

Exit status:
  0  the copy is made
  1  IMAGE is refused ('image: refusal K NAME'), and no FILE was made
  2  the words of the command line were not understood
  3  a file ('file PATH'; 'file PATH in use' where another program has the image open;
     'file PATH is there' where FILE is, and 'file PATH' where the disk of FILE failed), the
     device below the image ('image: refusal 8 Disk'), the memory ('memory') or the
     standard output failed";

pub(crate) const RESTATE_BRIEF: &str =
    "Writes the text of a plant that begins where its image stands";

pub(crate) const RESTATE_ABOUT: &str =
    "Writes the text of a plant that begins where its image stands.

Prints the text of PLANT with another first state: the places that are marked and the
values of the variables are those that the image leads to, as 'recover' tells them. All
else stays as it is. So a run can be looked at from there by 'trace', 'step', 'why' or
'draw', and a changed plant can begin where the old one ended: change the printed text, and
format an image for it.

The image stays as it is. It does not belong to the printed text, which is another one.";

pub(crate) const RESTATE_AFTER: &str = "Example:
  bip_run restate examples/sample.plant sample.image > later.plant
  bip_run step later.plant
runs the plant by hand from where the image stands.

Exit status:
  0  the text is printed
  1  the plant or the image is refused; the standard error has 'plant line L: fault K
     NAME' or 'image: refusal K NAME'
  2  the words of the command line were not understood
  3  a file ('file PATH'; 'file PATH in use' where another program has the image open),
     the device below the image ('image: refusal 8 Disk'), the memory ('memory', 'plant
     line 0: fault 15 Memory' or 'image: refusal 9 Memory') or the standard output failed";
