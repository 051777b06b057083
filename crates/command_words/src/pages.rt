//! The pages of help: what a command does, and examples.

/// The version: the kit with which the program was proved.
pub(crate) const VERSION: &str = "asio rattle-kit-13b logic dac8208d650f15bf\n";

/// The page of the program.
pub(crate) const PROGRAM: &str = "\
Sessions of an io_context: run them, check them, explain and draw them.

A script says which operations a session starts, by whom and on which strand; a trace says in which
order all of it happened. `asio` runs scripts, and says of any trace whether that order is legal.

Usage: asio <COMMAND>

Commands:
  run      Run a script, and write its trace
  check    Say of traces whether they are legal
  why      Say why a trace is judged as it is
  picture  Draw a session as an SVG
  orders   Say which orders a script may have
  upgrade  Write a script in version 2 of its language

Options:
  -h, --help     Print help; behind a command, the help of that command
  -V, --version  Print version

Files:
  A file has a script, or a script, a line that is exactly `--`, and a trace behind it.
  `-` is standard input.

Names:
  Lines at the head of a script that begin with `#` are comments, for this program alone. They can
  give names, which `why`, `picture` and `--json` show behind the numbers:
    # strand 0 room
    # act 3 the read of the line
  What has a name is a strand, a timer, a slot, a stream or an act.

Status:
  0 done, legal  1 usage  2 script refused  3 read fault  4 write fault  5 reactor fault
  6 no memory  7 no trace, or a bad one  8 not legal

Examples:
  asio run echo.session > echo.trace
  asio check echo.session echo.trace
  asio why two_at_once.input
  asio picture echo.session echo.trace -o echo.svg
  asio orders three_postings.session --list
";

pub(crate) const RUN: &str = "\
Run a script, and write its trace

Usage: asio run [OPTIONS] <FILE>

Arguments:
  <FILE>  The script

Options:
      --net          Each stream is a TCP connection over 127.0.0.1
      --workers <N>  So many workers in each round, from 1 to 16, in place of the script's number
      --json         Write objects, one a line
  -h, --help         Print help

Example:
  asio run echo.session --workers 1
  asio run echo.session --json | head -3

One of the legal orders comes out, and the next run may give another one.
";

pub(crate) const CHECK: &str = "\
Say of traces whether they are legal

Usage: asio check [OPTIONS] <FILE>...

Arguments:
  <FILE>...  A script and its trace, files that have both, or one recorded run

Options:
      --net   The reactor is a network, whose bytes nobody told
      --json  Write objects, one a line
  -h, --help  Print help

Example:
  asio check echo.session echo.trace
  asio check two_at_once.input other.input
  asio check recorded.run

Two files are a script and its trace, unless the first one has both. With several files the file's
name stands before each verdict, and the status is the worst: the one with the greatest number.
";

pub(crate) const WHY: &str = "\
Say why a trace is judged as it is

Usage: asio why [OPTIONS] <FILE> [TRACE]

Arguments:
  <FILE>   The script, with the trace behind it or without
  [TRACE]  The trace

Options:
      --net   The reactor is a network, whose bytes nobody told
      --json  Write objects, one a line
  -h, --help  Print help

Example:
  asio why two_at_once.input
  asio run echo.session | asio why echo.session -
";

pub(crate) const PICTURE: &str = "\
Draw a session as an SVG

Usage: asio picture [OPTIONS] <FILE> [TRACE]

Arguments:
  <FILE>   The script, with the trace behind it or without
  [TRACE]  The trace

Options:
      --net             The reactor is a network, whose bytes nobody told
  -o, --out <FILE.svg>  The file that gets the picture; the verdict goes to standard output then
      --html            A page for a browser: the picture, the lines and the reasons
      --json            With --out: write the verdict as an object
  -h, --help            Print help

Example:
  asio picture echo.session echo.trace -o echo.svg
  asio picture two_at_once.input --html -o two_at_once.html

Of a trace that isn't legal, what comes before the illegal line is drawn.
";

/// How `orders` is used.
pub(crate) const ORDERS_USAGE: &str =
    "asio orders <FILE> [--net] [--most <N>] [--list | --handlers | --can <CONDITION>]";

pub(crate) const ORDERS: &str = "\
Say which orders a script may have

Usage: asio orders <FILE> [--net] [--most <N>] [--list | --handlers | --can <CONDITION>]

Arguments:
  <FILE>  The script

Options, in this order:
      --net              The reactor is a network, whose bytes nobody told
      --most <N>         Look at so many orders, or at so many states where they are counted: 10000
      --list             Write each order
      --handlers         Write the begins, ends and drops of each
      --can <CONDITION>  Say whether an order meets this condition
  -h, --help             Print help, where it stands before the file

Example:
  asio orders three_postings.session
  asio orders three_postings.session --most 100 --list
  asio orders three_postings.session --can 'begin 1 before begin 0'

Without a question it says how many orders there are, and writes one of them.
";

pub(crate) const UPGRADE: &str = "\
Write a script in version 2 of its language

Usage: asio upgrade [OPTIONS] <FILE>

Arguments:
  <FILE>  The script

Options:
      --json  Write the text in an object
  -h, --help  Print help

Example:
  asio upgrade echo.session
";
