//! How truths show.
use filter::truth::Truth;
use std::test::Fail;

/// Each truth with its text.
const TEXTS: [(Truth, &str); 3] = [
    (Truth::True, "true"),
    (Truth::False, "false"),
    (Truth::Error, "error"),
];

#[test]
fn each_truth_shows_as_one_word(rt: HostRuntime) -> Result<(), Fail> {
    for (truth, text) in TEXTS {
        assert_eq!(rt; format!(in rt.alloc(); "{truth}")?.as_str(), text);
    }
    Ok(())
}
