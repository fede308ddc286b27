// Models in postfix, read: one token, and a whole field of them. Both readers take every field: the first yields one token and where the
// next begins, or that there is none, or that it is bad; the second how many places the model has, or that the field writes none.
#![tactic(auto)]

ghost use Rattle.std.specs.Prelude.{◌≡◌, ◌≤◌, length};
ghost use Rattle.paper.specs.Limits.{limits};
ghost use Rattle.postfix.specs.Token.{token_at};
ghost use Rattle.postfix.specs.Steps as steps;
ghost use Rattle.postfix.specs.Field.{model_in, content_of};

use model::Token;

// The byte that parts two tokens.
const SPACE: u8 = b' ';

// What stands at a place: a token and where the next begins; or none; or something bad.
// Kept: the scope asks for an enum here (docs/DECISIONS.md, the forms that it names), and these three answers are no Option.
#[derive(Drop)]
pub enum Reading {
    One(Token, usize),
    None,
    Bad,
}

// The token that ends at `end`, if it is parted there from the next one, or the field ends.
#[tactic(auto, unfolding(crate::specs::Steps::closed))]
fn parted(field: &[u8], token: Token, end: usize) -> Reading
    requires { end ≤ length field.now }
    ensures { result ≡ steps.closed field.now token end }
{
    if field.len() <= end {
        return Reading::One(token, end + 1);
    }
    if field[end] != SPACE {
        return Reading::Bad;
    }
    Reading::One(token, end + 1)
}

// The symbol at `at` of a field over so many symbols.
fn read_symbol(field: &[u8], at: usize, symbols: u16) -> Reading
    ensures { result ≡ steps.symbol_at symbols field.now at }
{
    let Ok((a, end)) = lines::read_number(field, at) else {
        return Reading::Bad;
    };
    if symbols <= a {
        return Reading::Bad;
    }
    parted(field, Token::Symbol(a), end)
}

// The token at `at` of a field over so many symbols.
pub fn read_token(field: &[u8], at: usize, symbols: u16) -> Reading
    ensures { result ≡ token_at symbols field.now at }
{
    if field.len() < at {
        return Reading::None;
    }
    if field.len() == at {
        return Reading::Bad;
    }
    match field[at] {
        b'e' => parted(field, Token::Empty, at + 1),
        b',' => parted(field, Token::Comma, at + 1),
        b'|' => parted(field, Token::Bar, at + 1),
        b'*' => parted(field, Token::Star, at + 1),
        b'?' => parted(field, Token::Query, at + 1),
        b'+' => parted(field, Token::Plus, at + 1),
        _ => read_symbol(field, at, symbols),
    }
}

// How many models a token takes from the stack.
#[tactic(auto, unfolding(crate::specs::Steps::takes))]
fn takes(t: Token) -> usize
    ensures { result ≡ steps.takes t }
{
    match t {
        Token::Comma | Token::Bar => 2,
        Token::Star | Token::Query | Token::Plus => 1,
        Token::Symbol(_) | Token::Empty => 0,
    }
}

// How many places a token adds.
#[tactic(auto, unfolding(crate::specs::Steps::adds))]
fn adds(t: Token) -> usize
    ensures { result ≡ steps.adds t }
{
    match t {
        Token::Symbol(_) => 1,
        _ => 0,
    }
}

// How many places the model has that a field writes over so many symbols, if it writes one.
pub fn read_model(field: &[u8], symbols: u16) -> Option<usize>
    ensures { result ≡ content_of (model_in limits symbols field.now) }
{
    let mut at = 0;
    let mut count = 0;
    let mut depth = 0;
    let mut places = 0;
    // Kept: a while, since a token has as many bytes as it likes.
    while at <= field.len() {
        let Reading::One(token, next) = read_token(field, at, symbols) else {
            return None;
        };
        if count == paper::TOKENS {
            return None;
        }
        let k = takes(token);
        if depth < k {
            return None;
        }
        depth = depth - k + 1;
        places += adds(token);
        count += 1;
        at = next;
    }
    if depth == 1 {
        return Some(places);
    }
    None
}
