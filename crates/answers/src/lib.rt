// The lines in which the programs answer, put into a lent slice: a refusal, "included", a witness and its nodes. As with crate put, every
// function leaves the place behind what it wrote; where that does not fit, nothing is changed, and the place neither.
// specs/Lines has the lines.
#![tactic(auto)]

ghost use Rattle.std.specs.Prelude.{◌≡◌, ◌≤◌, [], ◌∷◌, ◌++◌, length};
ghost use Rattle.put.specs.Put.{Wrote};
ghost use Rattle.lines.specs.Fields.{entry};
ghost use Rattle.lines.specs.Lines.{lf};
ghost use Rattle.answers.specs.Lines.{refused_line_of, included_line, witness_line, node_line};

use lines::LF;
use paper::Refusal;
use put::Out;

// So many bytes have room for every line: a word, at most three numbers of at most 20 digits, each behind a tab, and LF.
const LINE: usize = 80;

// Writes the line of a refusal.
pub fn write_refused(out: &mut Out, f: Refusal)
    ensures same { out.new.bytes.ghost_name ≡ out.old.bytes.ghost_name }
    ensures wrote { Wrote out.old.bytes.now out.old.at
        (refused_line_of f.side f.number f.place) out.new.at out.new.bytes.now }
{
    let mut line = [0u8; LINE];
    let mut text = Out {
        bytes: &mut line,
        at: 0,
    };
    text.write_bytes(b"refused");
    text.write_field(f.side as usize);
    text.write_field(f.number as usize);
    text.write_field(f.place);
    text.write_byte(LF);
    let end = text.at;
    out.write_bytes(&text.bytes[..end])
}

// Writes the line that says "included".
#[tactic(auto, unfolding(crate::specs::Lines::included_line))]
pub fn write_included(out: &mut Out)
    ensures same { out.new.bytes.ghost_name ≡ out.old.bytes.ghost_name }
    ensures wrote { Wrote out.old.bytes.now out.old.at included_line out.new.at out.new.bytes.now }
{
    out.write_bytes(b"included\n")
}

// Writes the line of a short word and one number.
fn write_word(out: &mut Out, word: &[u8], n: usize)
    requires { length word.now ≤ 40 }
    ensures same { out.new.bytes.ghost_name ≡ out.old.bytes.ghost_name }
    ensures wrote { Wrote out.old.bytes.now out.old.at
        (word.now ++ (entry n ++ (lf ∷ []))) out.new.at out.new.bytes.now }
{
    let mut line = [0u8; LINE];
    let mut text = Out {
        bytes: &mut line,
        at: 0,
    };
    text.write_bytes(word);
    text.write_field(n);
    text.write_byte(LF);
    let end = text.at;
    out.write_bytes(&text.bytes[..end])
}

// Writes the line that says that a witness of n nodes follows.
#[tactic(auto, unfolding(crate::specs::Lines::witness_line))]
pub fn write_witness(out: &mut Out, n: usize)
    ensures same { out.new.bytes.ghost_name ≡ out.old.bytes.ghost_name }
    ensures wrote { Wrote out.old.bytes.now out.old.at (witness_line n) out.new.at out.new.bytes.now }
{
    write_word(out, b"witness", n)
}

// Writes the line of a node: a leaf's symbol, or a join's two nodes.
// Kept: a public promise: a node is two numbers as a node list holds them, LEAF being the second of a leaf, so y is no Option.
pub fn write_node(out: &mut Out, x: u16, y: u16)
    ensures same { out.new.bytes.ghost_name ≡ out.old.bytes.ghost_name }
    ensures wrote { Wrote out.old.bytes.now out.old.at (node_line x y) out.new.at out.new.bytes.now }
{
    if y != paper::LEAF {
        out.write_letters(b'J', 2, x, y, 0)
    } else {
        write_word(out, b"A", x as usize)
    }
}
