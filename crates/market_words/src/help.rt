//! What `--help` says of the options that several commands have, and after the options.

/// Of `--progress`, where lines are read.
pub(crate) const PROGRESS_OF_LINES: &str =
    "Reports on standard error how much has been read, even if that is no terminal";

/// Of `--progress`, where jobs are run.
pub(crate) const PROGRESS_OF_JOBS: &str =
    "Reports on standard error how many jobs are done, even if that is no terminal";

/// Of `--arena`.
pub(crate) const ARENA: &str =
    "Draws arena N; up to 16 may be named, and where none is the first 16 are drawn";

/// At the end of `market --help`.
pub(crate) const OF_MARKET: &str = "\
`market run` reads script lines from standard input, and answers each by a reply line on standard
output. `market run --help` tells the commands. `market explain` reads the same lines, and writes
how the workers of the market that they lead to are divided. `market replay` reads the journal that
`market run --journal` writes of them, and tells whether each reply in it is the one that is due.
`market chart` reads such a journal too, and draws it: an SVG of what arenas asked for and had.
`market drive` reads a plan of jobs, and runs them by workers that a market moves between arenas.

Example:
  $ printf '0 open 8 1 normal\\n0 request 1 3\\n' | market run
  arena 1
  request 3

Exit status:
  0  done, or help or the version was asked for
  1  a line was unread, a journal is not legal, or a plan is refused
  2  a bad command line, or a fault at opening
  3  a read, write, memory or length fault, or more than 1,048,576 commands for a journal; its
     text is on standard error";

/// At the end of `market run --help`.
pub(crate) const OF_RUN: &str = "\
Standard input holds script lines, and standard output gets a reply line for each, written before
the next line is waited for. A line is SEAT COMMAND, with one space between fields, SEAT being a
number below --seats. The commands, and their replies:

  open SLOTS [RESERVED [LEVEL]]     an arena is opened: arena A
  close ARENA                       it goes, where no seat is placed at it: ok
  priority ARENA LEVEL              it goes first in that level: ok
  resize ARENA SLOTS RESERVED       it gets other slots: resized Q
  request ARENA WORKERS [ENQUEUED]  it asks for so many workers more, or fewer below 0, and has so
                                    much more work enqueued: request Q
  control VALUE                     while it lives, fewer workers than VALUE are active: control C
  uncontrol CONTROL                 it goes: ok
  join                              the seat asks where a worker is needed: placed A, or idle
  stay                              it asks whether its arena still wants it: stays A, or recalled A
  leave                             it leaves its arena: left A
  show ARENA                        what it is allotted:
                                    arena A request Q allot K top T active N recall R hire H
  lists                             arenas with workers too many, and with too few:
                                    recall A:COUNT,.. hire A:COUNT,..
  limit                             how many workers may be active: value V limit L effective E

RESERVED is 1 unless it is given. LEVEL is a number from 1, the level that is served first, or with
three levels one of high, normal and low; unless it is given it is the middle one. A refused
command changes nothing and is answered by its fault, as `F05 no arena`. Any other line is answered
`unread`. An empty line and one that begins with # are not answered.

With --journal no line is answered. After the last one, standard output gets the journal of the
commands: a line of JSON for the options, and one for each command that was read, with its reply.
`market replay` reads it.

Exit status:
  0  done, or help was asked for
  1  a line was unread
  2  a bad command line, or a fault at opening
  3  a read, write, memory or length fault, or more than 1,048,576 commands for a journal; its
     text is on standard error";

/// At the end of `market explain --help`.
pub(crate) const OF_EXPLAIN: &str = "\
Standard input holds script lines, as for `market run`, whose help tells the commands. None of them
is answered. After the last one, standard output gets the explanation of the market that they lead
to: how the workers of each level are divided among its arenas, in the order in which these are
served. Its first line tells the limits, what all arenas ask for, and how many workers may be
allotted. Then comes for each level a line

  level NAME demand D assigned K left N

what its arenas ask for, how many workers they are allotted, and how many are left to the levels
after it; and for each of its arenas a line

  arena A request Q carry C product P allot S rest E top T active N recall R hire H

where P is Q * K + C, C being what the arenas before it left to carry: S is P divided by D, and the
remainder E is left to the next. Where an arena asks for nothing, and where the limit is 0, these
columns have a dash.

Example:
  $ printf '0 open 8 1 normal\\n0 request 1 3\\n' | market explain
  value 8 limit 7 effective 7 demand 3 workers 3
  level high   demand        0 assigned     0 left     3
  level normal demand        3 assigned     3 left     0
  arena       1 request     3 carry        0 product          9 allot     3 rest        0 top yes ..
  level low    demand        0 assigned     0 left     0

Exit status:
  0  done, or help was asked for
  1  a line was unread
  2  a bad command line, or a fault at opening
  3  a read, write, memory or length fault; its text is on standard error";

/// At the end of `market replay --help`.
pub(crate) const OF_REPLAY: &str = "\
Standard input holds a journal, as `market run --journal` writes it: its header, a line of JSON for
the options of a market, and one for each command, with its seat and its reply. The commands are
given to a new market, and each reply is compared with the one that is due. When the journal has
ended, standard output gets one line: that it is legal, or its first fault. The header is line 1.

  legal N                         it is legal, and has N commands
  J1 bad header                   line 1 is missing or no header
  J2 bad json line N              line N is not JSON, has more than 65,536 bytes or no line end
  J3 bad record line N            line N is JSON, but no command with its seat and its reply, or
                                  1,048,576 commands are before it in a journal of version 1 or 2
  J4 wrong reply line N due TEXT  the reply in line N is not TEXT, which is due there

Example:
  $ printf '0 open 8 1 normal\\n0 request 1 3\\n' | market run --journal | market replay
  legal 2

Exit status:
  0  the journal is legal, or help was asked for
  1  it is not legal
  2  a bad command line
  3  a read, write, memory or length fault; its text is on standard error";

/// At the end of `market drive --help`.
pub(crate) const OF_DRIVE: &str = "\
Standard input holds a plan: a market, its arenas and controls, and jobs for the arenas. Workers run
the jobs, each in a thread of its own; the market says which arena each of them works for. When all
jobs are done, standard output gets a line `job N VALUE` for each, in order; it is the same for
every number of workers. The lines of a plan:

  market BASE HARD [LEVELS]                    first; LEVELS is 3 unless it is given
  arena SLOTS RESERVED LEVEL WANTED MANDATORY  1 to 64 of these, numbered from 1
  control VALUE                                then at most 256 of these
  job ARENA sum N                              1 + 2 + .. + N, with N up to 1000000
  job ARENA digits N                           the sum of the decimal digits of N

There are at most 65536 jobs. Empty lines and those that begin with # are passed over, and counted.

Example:
  $ printf 'market 8 64\\narena 8 1 normal 2 0\\njob 1 sum 10\\n' | market drive
  job 1 55

Exit status:
  0  all jobs are done, or help was asked for
  1  the plan is refused; why is on standard output, as `G01 bad plan line 2`
  2  a bad command line
  3  a read, write, memory or length fault; its text is on standard error";

/// At the end of `market chart --help`.
pub(crate) const OF_CHART: &str = "\
Standard input holds a journal, as for `market replay`. Where it is legal, standard output gets its
picture, an SVG of less than 2 MB that stands alone. From left to right come the entries, each
column holding as many as the others, from top to bottom the limits, and for each level a row for
each arena that stood in it: what it asked for, how many workers it was allotted, and how many it
had. A column shows the least and the most of each number in its entries, and tells them to a
pointer. Where the journal is not legal, standard output gets nothing, and standard error its first
fault, which `market replay --help` explains.

Example:
  $ printf '0 open 8 1 normal\\n0 request 1 3\\n' | market run --journal | market chart > chart.svg

Exit status:
  0  the journal is drawn, or help was asked for
  1  it is not legal
  2  a bad command line
  3  a read, write, memory or length fault; its text is on standard error";
