// The help, and what is said where the words of a command are not right.
use crate::asking::Service;
use crate::plain::Ended;
use crate::words::same;
use crate::{plain, words};
use std::env::Env;
use std::io;

// What the words of a command would be.
pub(crate) fn tell_use(err: &impl Print, service: Service) -> io::Result<()> {
    match service {
        Service::Read => plain::complain(
            err,
            b"read takes a table, a record and a format: lyre read TABLE RECORD 'AA,AB.'",
        ),
        Service::Update => plain::complain(
            err,
            b"update takes a table, a record, a format and values: lyre update TABLE RECORD 'MF1.' F5F0 [-o OUT]",
        ),
        Service::Empty => plain::complain(err, b"empty takes a table: lyre empty TABLE [-o OUT]"),
        Service::Explain => plain::complain(
            err,
            b"explain takes a table and a format: lyre explain TABLE 'AA,AB.'",
        ),
        _ => plain::complain(
            err,
            b"show takes a table, and a record or none: lyre show TABLE [RECORD]",
        ),
    }
}

fn say_help(out: &impl Print) -> io::Result<()> {
    plain::say(
        out,
        b"lyre answers calls on job records.

  lyre read TABLE RECORD FORMAT                  the items of a read in hexadecimal, and each in plain words
  lyre update TABLE RECORD FORMAT HEX [-o OUT]   the record with the values HEX stored, and in plain words what FORMAT then reads
  lyre empty TABLE [-o OUT]                      the empty record of a table
  lyre show TABLE [RECORD]                       a table as a list, or a record field by field
  lyre explain TABLE FORMAT                      what each element of a format names

TABLE and RECORD are files, - is standard input. A file is binary where its first byte is E5; any other has hexadecimal digits in
pairs, with blanks and line ends between them. FORMAT is text, as 'AA,MF1-3,AB,5,U.', where a read may have N for the last, as in
'MFN,HB1-N.'; HEX is digits in pairs. A record is written in hexadecimal, or in binary to the file OUT, which a refusal leaves as it was;
where OUT is - the bytes go to standard output alone, so that another lyre can take them.

Exit status: 0 done, 1 refused, 2 wrong use or a file that cannot be read or written.
",
    )
}

// The word `help` or none; any other is no command.
pub(crate) fn help(
    env: &impl Env,
    out: &impl Print,
    err: &impl Print,
    word: &[u8],
) -> io::Result<Ended> {
    if words::count(env) < 2 {
        say_help(out)?;
        return Ok(Ended::Done);
    }
    if same(word, b"help") {
        say_help(out)?;
        return Ok(Ended::Done);
    }
    plain::complain(
        err,
        b"this is no command: use read, update, empty, show, explain or help",
    )?;
    Ok(Ended::Wrong)
}
