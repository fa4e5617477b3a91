// The reading of a whole script.
ghost use Rattle.std.specs.Prelude.{◌≡◌, [], length, min, replicate, take};
ghost use Rattle.grammar.specs.Reading.{reading};
ghost use Rattle.layout.specs.Encoding.{unused};
ghost use Rattle.layout.specs.Tabling.{tables_of};
ghost use Rattle.parser.specs.Recording.{Answers, Lawful};

use super::definitions::definitions;
use super::script::Script;
use forms::Source;
use layout::{
    Constructor, Counts, Definition, Function, Functions, NODES, Node, Tables, TypeNode, Word,
};
use symbols::number_symbols;
use text::Refused;

// No node uses an entry.
fn clear(nodes: &mut [Node])
    ensures { nodes.new ≡ replicate (length nodes.old) unused }
{
    nodes.fill(Node::UNUSED);
}

// The tables of an empty script.
fn blank() -> Tables
    ensures { result ≡ tables_of [] }
{
    let function = Function {
        name: Word::UNUSED,
        annotation: None,
        define: None,
    };
    Tables {
        counts: Counts {
            nodes: 0,
            types: 0,
            definitions: 0,
            datatypes: 0,
            bindings: 0,
            constructors: 0,
            parameters: 0,
        },
        definitions: [Definition::Unused; 832],
        constructors: [Constructor::UNUSED; 256],
        parameters: [Word::UNUSED; 1536],
        types: [TypeNode::UNUSED; 512],
        functions: Functions {
            count: 0,
            entries: [function; 768],
        },
    }
}

// The first 4096 entries, as far as there are so many.
fn first_nodes(nodes: &[Node]) -> [Node; 4096]
    ensures { take (min (length nodes.now) 4096) result ≡ take 4096 nodes.now }
{
    let mut copy = [Node::UNUSED; 4096];
    let count = nodes.len().min(NODES);
    copy[..count].copy_from_slice(&nodes[..count]);
    copy
}

// Reads a text into the node list: the script that it is, or the first refusal. After a refusal no entry is used.
pub fn read<'t>(text: &'t [u8], nodes: &mut [Node]) -> Result<Script<'t>, Refused>
    ensures answers { Answers (reading text.now (length nodes.old)) text.now (length nodes.old) result nodes.new }
    ensures law { Lawful text.now (length nodes.old) result nodes.new }
{
    clear(nodes);
    let source = Source::new(text)?;
    let mut tables = blank();
    // The list is cleared before the refusal goes on; a closure under `map_err` would hold the list beside the call.
    if let Err(refused) = definitions(&source, nodes, &mut tables) {
        clear(nodes);
        return Err(refused);
    }
    number_symbols(source.text, nodes);
    Ok(Script {
        text,
        lent: nodes.len(),
        nodes: first_nodes(nodes),
        tables,
    })
}
