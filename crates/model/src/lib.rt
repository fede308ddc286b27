// Content models and what they mean: words, places, ambiguity, documents, derivation. No definition of specs/ speaks of states; proofs/ has
// the laws that tie them to the sets of places that a table is built from. No function stands here.
#![tactic(auto)]

// A token of a model in postfix: a symbol's number, `e`, `,`, `|`, `*`, `?` or `+`.
#[derive(Clone, Copy)]
pub enum Token {
    Symbol(u16),
    Empty,
    Comma,
    Bar,
    Star,
    Query,
    Plus,
}
