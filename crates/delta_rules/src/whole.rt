//! What a process keeps of its past, field by field.
use crate::answers::Answers;
use crate::fixed::Fixed;

// Each field by its name: a further one is refused here until it is named. None of them is a list of past messages.
fn fields_are_whole(answers: &Answers) {
    let Answers {
        me: _,
        slots: _,
        values: _,
        nodes: _,
        live: _,
        fixed,
    } = answers;
    let Fixed {
        live: _,
        rules: _,
        named: _,
        used: _,
    } = fixed;
}
