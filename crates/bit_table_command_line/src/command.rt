//! The program's command line, as clap reads it.

ghost use Rattle.std.specs.Prelude.{◌≡◌, IfOk};
ghost use Rattle.clap.specs.Words.{app_of};
ghost use Rattle.bit_table_command_line.specs.Options.{program};

use clap::{Arg, Command};
use std::alloc::{AllocError, Global};

// What help says below the options.
const AFTER_HELP: &str = "\
The script comes on standard input, and each of its lines is answered on standard output. First
comes a layout: `low` or `high`, and fields of 1 to 64 bits without a sign (u) or with one (i),
1,024 bits together. Then come commands. Rows are numbered from 0, and bear letters, a to z:

  insert p v..     a new row before row p, one value a field
  delete p q       takes rows p to before q out
  set p f v        field f of row p becomes v
  get p            answers the numbers of row p
  copy p q r       writes rows p to before q over those from r on
  swap p q         exchanges rows p and q
  rotate p q k     of rows p to before q the first k become the last
  dup p q          appends rows p to before q
  image            answers the row count and the rows' bytes
  load c h         the c rows of the bytes h, in place of all rows
  keep             keeps rows and letters, in place of those kept before
  back             brings back what was kept, once
  mark x f op v    letter x for the rows whose field f is op (<, = or >) v
  and x y          letter x becomes `x and y`, row by row; so do or, xor
  not x            letter x for the rows that did not bear it
  count x          answers how many rows bear x
  list x           answers which rows bear x
  drop x           takes the rows that bear x out

This script is answered `ok` three times, then `2 7d0d`, `ok` and `0`:

  low a:u3 b:i4
  insert 0 5 -1
  insert 1 2 3
  image
  mark x b < 0
  list x

The storage changes no answer.";

// The program's options, whose values are one of these names each.
pub(crate) fn command<'a>(
    alloc: Global,
    words: &'a [&'a str],
    orders: &'a [&'a str],
) -> Result<Command<'a>, AllocError>
    ensures { IfOk result (λ command. app_of command ≡ program words.entry orders.entry) }
{
    let word = Arg::new(alloc, "word")
        .long("word")
        .value_name("WORD")
        .value_parser(words)
        .default_value("u64")
        .help("The word that the rows' bits lie in");
    let order = Arg::new(alloc, "order")
        .long("order")
        .value_name("ORDER")
        .value_parser(orders)
        .default_value("lsb0")
        .help("The order of the bits in each word");
    Command::new(alloc, "bit-table")
        .no_binary_name(true)
        .about("Edits a table of packed rows by the lines of a script")
        .after_help(AFTER_HELP)
        .arg(word)?
        .arg(order)
}
