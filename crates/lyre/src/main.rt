// `lyre`: the services for people. It answers one call from the words of its command line; `commands` has what each word does.
#![tactic(auto)]

mod asking;
mod commands;
mod elements;
mod explaining;
mod help;
mod hexadecimal;
mod letters;
mod listing;
mod meanings;
mod plain;
mod refusals;
mod saving;
mod spans_shown;
mod tables_shown;
mod values_shown;
mod words;

use plain::Ended;
use std::process::ExitCode;

fn main(rt: HostRuntime) -> ExitCode {
    let out = rt.stdout();
    let err = rt.stderr();
    let mut word = [0u8; 8];
    let used = words::short(&rt, 1, &mut word);
    match commands::command(&rt, &out, &err, &word[..used]) {
        Ok(ended) => plain::end(ended),
        Err(_) => {
            let _ = plain::complain(&err, b"the output could not be written");
            plain::end(Ended::Wrong)
        }
    }
}
