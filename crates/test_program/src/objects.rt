//! What objects say of lines.

use json_lines::{JsonLines, LineSource};
use std::io::Write;
use std::test::Fail;

/// The plain lines of a refusal in a trace.
const LINES: &str = "line 2: M 020000000002 0F
  check 21, minislots over
    the budget of 32 minislots holds 30, this flow needs 4
    DSA-RSP to 020000000002, transaction 1: reject-temporary
";

/// The objects of these lines.
const OBJECTS: &str = r#"{"line":2,"text":"line 2: M 020000000002 0F","type":"line"}
{"check":21,"check_name":"minislots over","line":2,"text":"  check 21, minislots over","type":"check"}
{"held":30,"limit":32,"line":2,"needed":4,"text":"    the budget of 32 minislots holds 30, this flow needs 4","type":"comparison"}
{"check":21,"check_name":"minislots over","code_name":"reject-temporary","held":30,"limit":32,"line":2,"message":"DSA-RSP","modem":"020000000002","needed":4,"text":"    DSA-RSP to 020000000002, transaction 1: reject-temporary","transaction":1,"type":"reply"}
"#;

#[test]
fn a_trace_has_an_object_for_each_line(rt: HostRuntime) -> Result<(), Fail> {
    let mut written = Vec::new(rt.alloc());
    let mut lines = JsonLines::new(rt.alloc(), &mut written, LineSource::trace());
    lines.write_all(LINES.as_bytes())?;
    drop(lines);
    let text = str::from_utf8(written.as_slice()).unwrap_or("");
    assert!(rt; text == OBJECTS);
    Ok(())
}
