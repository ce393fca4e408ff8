//! Lines in the order in which a session gets them, with what is printed for each.
use console::command::Command;
use console::session::Session;
use std::alloc::Global;
use std::test::Fail;

/// Lines with what is printed for them; nothing for a line that asks nothing.
const LINES: [(&str, &str); 14] = [
    // before any query
    ("", ""),
    ("# a remark", ""),
    ("show", "error: expected a current query"),
    ("write 4", "error: expected a current query"),
    // an alternative with no triples, no blocks and no filter takes four bytes
    (
        "query 01 00 00 00",
        "query: 1 alternatives, 0 blocks, 0 triples, 0 nodes\n",
    ),
    ("write 4", "bytes: 01 00 00 00\n"),
    ("write 1000000", "bytes: 01 00 00 00\n"),
    ("write 3", "refused 34 at 0"),
    ("show", "SELECT * WHERE {\n}\n"),
    // what is wrong leaves the current query as it is
    ("query 01 00 00", "refused 11 at 3"),
    (
        "query 1",
        "error: expected two hexadecimal digits for each byte, with spaces between",
    ),
    (
        "write 1000001",
        "error: expected a length from 0 to 1000000",
    ),
    ("  write 4  ", "bytes: 01 00 00 00\n"),
    ("wrote 4", "error: expected query, write or show"),
];

/// What is printed for the line, but for the end of a failure's line.
fn printed(heap: Global, session: &mut Session, line: &str) -> Result<String, Fail> {
    match session.answer(heap, line.as_bytes()) {
        Ok(Some(answer)) => {
            let reply = session.reply(&answer);
            Ok(format!(in heap; "{reply}")?)
        }
        Ok(None) => Ok(String::new(heap)),
        Err(failure) => Ok(format!(in heap; "{failure}")?),
    }
}

#[test]
fn lines_are_answered_as_in_the_table(rt: HostRuntime) -> Result<(), Fail> {
    let heap = rt.alloc();
    let mut session = Session::new();
    for (line, expected) in LINES {
        let text = printed(heap, &mut session, line)?;
        assert_eq!(rt; text.as_str(), expected, "{line}");
    }
    Ok(())
}

#[test]
fn a_command_of_bytes_is_parsed_and_carried_out(rt: HostRuntime) -> Result<(), Fail> {
    let heap = rt.alloc();
    let Ok(Some(command)) = Command::parse(heap, b"query 01 00 00 00") else {
        return Err(Fail::new("not parsed"));
    };
    match &command {
        Command::Query(bytes) => assert_eq!(rt; bytes.as_slice(), [1, 0, 0, 0].as_slice()),
        _ => return Err(Fail::new("another command")),
    }
    match Session::new().step(heap, command) {
        Ok(_) => Ok(()),
        Err(_) => Err(Fail::new("not carried out")),
    }
}
