//! What is written in the place of statements that begin as in another language.

/// What is said of a statement that begins as in another language.
pub const FIRSTS: [&[u8]; 23] = [
    b"=second ^#name @+|-|*|//|% >= ~ there is no &=: write $ = $ & ..",
    b"=second ^#name @+ >+ ~ there is no ++: write $ = $ + 1",
    b"=second ^#name @-- ~ there is no --: write $ = $ - 1",
    b"^#name =among",
    b"^return ~ there is no return: a method ends with its last line, and leaves what it works out in a variable of the class",
    b"^break|continue ~ a loop is not left before its end: use a condition, while not done and ..:",
    b"^import|include ~ there are no imports",
    b"^print|echo|puts|printf ~ write output(..)",
    b"^global|nonlocal ~ a method sees the variables of its class without that",
    b"^assert ~ there is no assert: write if not (..): and below it output(..), which a hunt can look for",
    b"^raise|try|except ~ there are no exceptions",
    b"^with|lock|synchronized ~ no lock is needed: a process takes messages at labels and awaits alone",
    b"^let|const ~ variables are declared in the class: var x: int",
    b"^wait|sleep|waitfor|waituntil|wait_until|wait_for ~ write await and a condition",
    b"^yield ~ a place to wait is a label, -- name, or an await",
    b"^switch|match|case ~ write if, elif and else",
    b"^do|loop|until|repeat ~ a loop is written while ..: or for x in ..:",
    b"^otherwise|default ~ write else:",
    b"^foreach|forall ~ write for x in s:",
    b"^end|endif|fi|od|endwhile|endfor ~ a block ends where its indentation does",
    b"^label ~ a label is written so: -- ready",
    b"^unless ~ write if not (..):",
    b"^call|invoke ~ a method is called by its name alone: f(5)",
];
