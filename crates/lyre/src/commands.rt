// What each command does: the words are taken, the service is asked, and its answer is said.
ghost use Rattle.std.specs.Prelude.{◌≡◌, ◌≤◌, length, IfOk, IfSome};

use crate::asking::Service;
use crate::plain::Ended;
use crate::words::same;
use crate::{
    asking, explaining, help, hexadecimal, listing, refusals, saving, tables_shown, words,
};
use std::io;
use std::rt::{Env, Files};

// The longest table or record, and one byte more.
const FILE: usize = 65536;

// A format may be longer than the services take: they refuse it.
const FORMAT: usize = 8192;

// The longest word that Linux hands to a program.
const VALUES: usize = 131072;

// The words of an update, and of an empty record, before `-o`.
const UPDATE: usize = 6;

const EMPTY: usize = 3;

// Whether the command has its words alone, or `-o` and a file too.
fn has_file(env: &impl Env, words: usize, more: usize) -> bool {
    let n = words::count(env);
    n == words || n == more && words::is(env, words, b"-o")
}

// The record, where the service takes one.
fn take_record(
    rt: &(impl Env + Files + Input),
    err: &impl Print,
    service: Service,
    area: &mut [u8],
) -> words::Taken
    ensures given { IfOk result (λ given. IfSome given (λ used. used ≤ length area.new)) }
    ensures kept { length area.new ≡ length area.old }
{
    match service {
        Service::Read => words::file(rt, err, 3, area),
        Service::Update => words::file(rt, err, 3, area),
        Service::Record => words::file(rt, err, 3, area),
        _ => Ok(Some(0)),
    }
}

// The format, where the service takes one.
fn take_format(env: &impl Env, err: &impl Print, service: Service, area: &mut [u8]) -> words::Taken
    ensures given { IfOk result (λ given. IfSome given (λ used. used ≤ length area.new)) }
    ensures kept { length area.new ≡ length area.old }
{
    match service {
        Service::Read => words::format(env, err, 4, area),
        Service::Update => words::format(env, err, 4, area),
        Service::Explain => words::format(env, err, 3, area),
        _ => Ok(Some(0)),
    }
}

// The values, which an update takes.
fn take_values(env: &impl Env, err: &impl Print, service: Service, area: &mut [u8]) -> words::Taken
    ensures given { IfOk result (λ given. IfSome given (λ used. used ≤ length area.new)) }
    ensures kept { length area.new ≡ length area.old }
{
    match service {
        Service::Update => words::bytes(env, err, 5, area),
        _ => Ok(Some(0)),
    }
}

// The answer of a service that was not refused. After a new record it is said what the format now reads, or what every field holds.
fn say_answer(
    rt: &(impl Env + Files),
    out: &impl Print,
    err: &impl Print,
    service: Service,
    t: &[u8],
    record: &[u8],
    f: &[u8],
    answer: &[u8],
) -> io::Result<Ended> {
    match service {
        Service::Read => {
            hexadecimal::say_line(out, answer)?;
            explaining::say_format(out, t, record, f, true)?;
        }
        Service::Update => {
            if let Some(ended) = saving::give(rt, out, err, answer, UPDATE)? {
                return Ok(ended);
            }
            explaining::say_format(out, t, answer, f, true)?;
        }
        Service::Empty => {
            if let Some(ended) = saving::give(rt, out, err, answer, EMPTY)? {
                return Ok(ended);
            }
            listing::show(out, t, answer)?;
        }
        Service::Explain => explaining::say_format(out, t, record, f, false)?,
        Service::Table => tables_shown::show(out, t)?,
        Service::Record => listing::show(out, t, record)?,
    }
    Ok(Ended::Done)
}

fn answer(
    rt: &(impl Env + Files),
    out: &impl Print,
    err: &impl Print,
    service: Service,
    t: &[u8],
    record: &[u8],
    f: &[u8],
    values: &[u8],
) -> io::Result<Ended> {
    let mut room = [0u8; rules::LONGEST_ITEMS];
    match asking::ask(service, t, record, f, values, &mut room) {
        Ok(used) => say_answer(rt, out, err, service, t, record, f, &room[..used]),
        Err(x) => {
            refusals::refuse(err, service, t, record, f, values, x)?;
            Ok(Ended::Refused)
        }
    }
}

// A service with the words that it takes. A word that is not good has been said so.
fn run(
    rt: &(impl Env + Files + Input),
    out: &impl Print,
    err: &impl Print,
    service: Service,
) -> io::Result<Ended> {
    let mut table = [0u8; FILE];
    let Some(table_end) = words::file(rt, err, 2, &mut table)? else {
        return Ok(Ended::Wrong);
    };
    let mut record = [0u8; FILE];
    let Some(record_end) = take_record(rt, err, service, &mut record)? else {
        return Ok(Ended::Wrong);
    };
    let mut format = [0u8; FORMAT];
    let Some(format_end) = take_format(rt, err, service, &mut format)? else {
        return Ok(Ended::Wrong);
    };
    let mut values = [0u8; VALUES];
    let Some(values_end) = take_values(rt, err, service, &mut values)? else {
        return Ok(Ended::Wrong);
    };
    answer(
        rt,
        out,
        err,
        service,
        &table[..table_end],
        &record[..record_end],
        &format[..format_end],
        &values[..values_end],
    )
}

// A service that has its words, or what they would be.
fn start(
    rt: &(impl Env + Files + Input),
    out: &impl Print,
    err: &impl Print,
    service: Service,
    enough: bool,
) -> io::Result<Ended> {
    if enough {
        return run(rt, out, err, service);
    }
    help::tell_use(err, service)?;
    Ok(Ended::Wrong)
}

// Which of the two is shown, a table or a record, goes by the words.
fn show(rt: &(impl Env + Files + Input), out: &impl Print, err: &impl Print) -> io::Result<Ended> {
    let n = words::count(rt);
    if n == 3 {
        return start(rt, out, err, Service::Table, true);
    }
    start(rt, out, err, Service::Record, n == 4)
}

pub(crate) fn command(
    rt: &(impl Env + Files + Input),
    out: &impl Print,
    err: &impl Print,
    word: &[u8],
) -> io::Result<Ended> {
    if same(word, b"read") {
        return start(rt, out, err, Service::Read, words::count(rt) == 5);
    }
    if same(word, b"update") {
        let enough = has_file(rt, UPDATE, UPDATE + 2);
        return start(rt, out, err, Service::Update, enough);
    }
    if same(word, b"empty") {
        let enough = has_file(rt, EMPTY, EMPTY + 2);
        return start(rt, out, err, Service::Empty, enough);
    }
    if same(word, b"show") {
        return show(rt, out, err);
    }
    if same(word, b"explain") {
        return start(rt, out, err, Service::Explain, words::count(rt) == 4);
    }
    help::help(rt, out, err, word)
}
