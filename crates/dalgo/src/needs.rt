//! What the events of a schedule need in order to be allowed, for a person who is told of one that is not.

/// What the event of this line needs.
pub fn needs_of(line: &[u8]) -> &'static str {
    let mut words = line.split(|byte| *byte == b' ');
    let word = words.next().unwrap_or(line);
    let has_two_numbers = words.nth(1).is_some();
    match word {
        b"move" if has_two_numbers => {
            "move P K: process P waits at an await, and its alternative K is true"
        }
        b"move" => "move P: process P has not started, or waits at a label",
        b"timeout" => {
            "timeout P: process P waits at an 'await' with a timeout block, and none of its conditions is true"
        }
        b"deliver" => {
            "deliver P Q I: the channel from P to Q holds a message I, in a fifo channel the first one, and process Q takes it where it waits"
        }
        b"lose" => "lose P Q I: the channel from P to Q holds a message I, and is unreliable",
        b"repeat" => {
            "repeat P Q I: the channel from P to Q holds a message I, and is unordered and unreliable"
        }
        _ => "show P, stat P: there is a process P",
    }
}
