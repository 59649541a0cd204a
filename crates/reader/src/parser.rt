// The reading of a row into a tree: document 01, "Node record" and "Steps". It is the original's `TypeSyntaxParser`, over token kinds.
// Each reading writes its nodes at the front of the tail of the tree buffer that it is lent. `lists` and `nesting` are the original's
// template and nesting depth; the contracts' words are in specs/ReaderSays.antt.

ghost use Rattle.std.specs.Prelude.{◌≡◌, false, ◌∷◌, ◌+◌, ◌*◌, ◌≤◌, ◌<◌, drop, length};
ghost use Rattle.rows.specs.Format.{most_tokens};
ghost use Rattle.reader.specs.Nodes.{node_width, numbers_per_token, numbers_bound};
ghost use Rattle.reader.specs.Reading.{list, MAX_NESTING_DEPTH, reading};
ghost use Rattle.reader.specs.Tables.{region_of};
ghost use Rattle.reader.specs.ReaderSays.{GroupAnswers, ListAnswers, NodeAnswers, Parses, ParserReady, TokenAnswers, closed, list_ended, list_stop_of, past, refused_unread, region_due};

use crate::nodes::{ARGUMENT_NODE, LIST_NODE, NODE_WIDTH, TOKEN_NODE, put_node};
use crate::tables::{
    GroupStep, Start, argument_ends, group_kind, group_step, is_angle_close, kind_at, node_start,
};
use prescan::scan::is_ordinary;
use rows::answer::{Delimiter, TypeNameError};
use rows::kinds;

// What stays the same of a row while it is read: its token kinds, and whether it is C++.
#[derive(Clone, Copy)]
struct ParsedRow<'a> {
    kinds: &'a [u8],
    cpp: bool,
}

// Where a reading stands: its token, whether half a `>>` is left, and the steps left of the allowance.
#[derive(Clone, Copy)]
pub struct TypeSyntaxParser {
    pub cursor: usize,
    pub pending_greater: bool,
    pub left: u32,
}

impl TypeSyntaxParser {
    pub const MAX_NESTING_DEPTH: usize = 64;

    pub fn new(allowance: u32) -> Self
        ensures { (result.cursor ≡ 0) × (result.pending_greater ≡ false) × (result.left ≡ allowance) }
    {
        Self {
            cursor: 0,
            pending_greater: false,
            left: allowance,
        }
    }

    // One token further, with so many steps left.
    fn past(self, left: u32) -> Self
        requires { self.cursor ≤ numbers_bound }
        ensures { result ≡ past self left }
    {
        Self {
            cursor: self.cursor + 1,
            left,
            ..self
        }
    }
}

// Why a reading stops: a refusal, with the steps left; or no step is left for the next node.
#[derive(Clone, Copy)]
pub enum Stop {
    Refused(TypeNameError, u32),
    Spent,
}

// Where to go on behind the nodes that were read, and how many were written.
#[derive(Clone, Copy)]
pub struct NodesRead {
    pub next: TypeSyntaxParser,
    pub nodes: usize,
}

// Why a list is none: its try failed, with the steps left; or no step is left for the next node.
#[derive(Clone, Copy)]
pub enum ListStop {
    Failed(u32),
    Spent,
}

// Whatever refuses a node of a list, the try fails.
impl From<Stop> for ListStop {
    ghost from_gives = { λ stop list_stop. list_stop ≡ list_stop_of stop };

    fn from(stop: Stop) -> ListStop {
        match stop {
            Stop::Refused(_, left) => ListStop::Failed(left),
            Stop::Spent => ListStop::Spent,
        }
    }
}

// How the arguments of a list end.
#[derive(Clone, Copy)]
pub enum ListEnd {
    Closed,
    EmptyArgument,
    Unterminated,
}

// A row that was read: how many nodes its tree has, and the steps taken.
#[derive(Clone, Copy)]
pub struct Tree {
    pub nodes: usize,
    pub steps: u32,
}

// Why a row has no tree.
#[derive(Clone, Copy)]
pub enum ParseError {
    Refused { error: TypeNameError, steps: u32 },
    AllowancePassed,
}

// What comes of reading a row.
pub type Parsed = Result<Tree, ParseError>;

// What is refused before the reading takes no step.
impl From<TypeNameError> for ParseError {
    ghost from_gives = { λ error parse_error. parse_error ≡ refused_unread error };

    fn from(error: TypeNameError) -> ParseError {
        ParseError::Refused { error, steps: 0 }
    }
}

// Writes a node above the nodes that stand behind its place.
fn put_above(
    tree: &mut [u32],
    kind: u32,
    token: usize,
    next: TypeSyntaxParser,
    below: usize,
) -> NodesRead
    requires { (node_width ≤ length tree.old) × (token < numbers_bound) × (below + 1 < numbers_bound) }
    ensures read { result ≡ record { next = next; nodes = below + 1 } }
    ensures tree { tree.new ≡ kind ∷ token ∷ (below + 1) ∷ drop node_width tree.old }
{
    put_node(tree, kind, token, below + 1);
    NodesRead {
        next,
        nodes: below + 1,
    }
}

// A token that is a node by itself, whatever stands before it.
fn parse_token(tree: &mut [u32], parser: TypeSyntaxParser) -> Result<NodesRead, Stop>
    requires { (node_width ≤ length tree.old) × (parser.cursor < numbers_bound) }
    ensures { TokenAnswers parser result tree.old tree.new }
{
    if parser.left == 0 {
        return Err(Stop::Spent);
    }
    let next = parser.past(parser.left - 1);
    Ok(put_above(tree, TOKEN_NODE, parser.cursor, next, 0))
}

impl ParsedRow<'_> {
    // The nodes of the row, or of the group that is open, from the cursor on.
    #[cycle(parsing)]
    fn parse_group(
        &self,
        tree: &mut [u32],
        parser: TypeSyntaxParser,
        end: Option<Delimiter>,
        lists: usize,
        nesting: usize,
    ) -> Result<NodesRead, Stop>
        requires { ParserReady self.now.kinds.now parser.cursor lists nesting 65 0 tree.old }
        ensures { GroupAnswers self.now.kinds.now parser.cursor (region_due self.now.cpp self.now.kinds.now (region_of end) lists nesting parser) result tree.new }
    {
        if nesting > TypeSyntaxParser::MAX_NESTING_DEPTH {
            return Err(Stop::Refused(TypeNameError::NestingLimitExceeded, parser.left));
        }
        let kinds = self.kinds;
        let mut now = parser;
        let mut after_identifier = false;
        let mut nodes: usize = 0;
        loop {
            let at = now.cursor;
            let kind = kind_at(kinds, at);
            let start = NODE_WIDTH * nodes;
            // Most nodes are such a token: they are read without a call.
            if is_ordinary(kind) || kind == kinds::COMMA {
                let read = parse_token(&mut tree[start..], now)?;
                now = read.next;
                nodes += read.nodes;
                after_identifier = kind == kinds::IDENTIFIER;
                continue;
            }
            match group_step(end, kind, at) {
                GroupStep::Ends(after) => {
                    now.cursor = after;
                    return Ok(NodesRead { next: now, nodes });
                }
                GroupStep::Stops(error) => return Err(Stop::Refused(error, now.left)),
                GroupStep::Node => {}
            }
            let read = self.parse_node(&mut tree[start..], now, after_identifier, lists, nesting)?;
            now = read.next;
            nodes += read.nodes;
            after_identifier = kind == kinds::IDENTIFIER;
        }
    }

    // The node at the cursor. `after_identifier`: its left neighbour node is an identifier token.
    #[cycle(parsing)]
    fn parse_node(
        &self,
        tree: &mut [u32],
        parser: TypeSyntaxParser,
        after_identifier: bool,
        lists: usize,
        nesting: usize,
    ) -> Result<NodesRead, Stop>
        requires { ParserReady self.now.kinds.now parser.cursor lists nesting MAX_NESTING_DEPTH 0 tree.old × (parser.cursor < length self.now.kinds.now) }
        ensures { NodeAnswers self.now.cpp self.now.kinds.now lists nesting after_identifier parser result tree.new }
    {
        let at = parser.cursor;
        let left = parser.left;
        if left == 0 {
            return Err(Stop::Spent);
        }
        let begun = parser.past(left - 1);
        match node_start(self.cpp, after_identifier, kind_at(self.kinds, at)) {
            Start::Group(delimiter) => {
                let read = self.parse_group(
                    &mut tree[NODE_WIDTH..],
                    begun,
                    Some(delimiter),
                    lists,
                    nesting + 1,
                )?;
                Ok(put_above(tree, group_kind(delimiter), at, read.next, read.nodes))
            }
            Start::Angle => {
                let tried = self.parse_template_arguments(
                    &mut tree[NODE_WIDTH..],
                    begun,
                    lists + 1,
                    nesting + 1,
                );
                match tried {
                    Ok(read) => Ok(put_above(tree, LIST_NODE, at, read.next, read.nodes)),
                    Err(ListStop::Failed(spared)) => {
                        Ok(put_above(tree, TOKEN_NODE, at, parser.past(spared), 0))
                    }
                    Err(ListStop::Spent) => Err(Stop::Spent),
                }
            }
            Start::Token => Ok(put_above(tree, TOKEN_NODE, at, begun, 0)),
        }
    }

    // The list is closed: by half a `>>`, or by the token here.
    fn take_angle_close(&self, parser: TypeSyntaxParser) -> TypeSyntaxParser
        requires { parser.cursor ≤ numbers_bound }
        ensures { result ≡ closed self.now.kinds.now parser }
    {
        let at = parser.cursor;
        if parser.pending_greater {
            return TypeSyntaxParser {
                pending_greater: false,
                ..parser
            };
        }
        TypeSyntaxParser {
            cursor: at + 1,
            pending_greater: kind_at(self.kinds, at) == kinds::SHIFT_RIGHT,
            ..parser
        }
    }

    // What comes of a list whose arguments end so, with so many nodes of them.
    fn end_list(
        &self,
        parser: TypeSyntaxParser,
        nodes: usize,
        end: ListEnd,
    ) -> Result<NodesRead, ListStop>
        requires { parser.cursor ≤ numbers_bound }
        ensures { result ≡ list_ended self.now.kinds.now parser nodes end }
    {
        match end {
            ListEnd::Closed => Ok(NodesRead {
                next: self.take_angle_close(parser),
                nodes,
            }),
            ListEnd::EmptyArgument | ListEnd::Unterminated => Err(ListStop::Failed(parser.left)),
        }
    }

    // The arguments of a list, from behind its `<` to behind its closer.
    #[cycle(parsing)]
    fn parse_template_arguments(
        &self,
        tree: &mut [u32],
        parser: TypeSyntaxParser,
        lists: usize,
        nesting: usize,
    ) -> Result<NodesRead, ListStop>
        requires { ParserReady self.now.kinds.now parser.cursor lists nesting 65 node_width tree.old }
        ensures { ListAnswers self.now.kinds.now parser.cursor (region_due self.now.cpp self.now.kinds.now list lists nesting parser) result tree.new }
    {
        if nesting > TypeSyntaxParser::MAX_NESTING_DEPTH {
            return Err(ListStop::Failed(parser.left));
        }
        let kinds = self.kinds;
        let mut now = parser;
        let mut nodes: usize = 0;
        let outcome = 'arguments: loop {
            let first = now.cursor;
            let head = NODE_WIDTH * nodes;
            if is_angle_close(lists, kind_at(kinds, first), now.pending_greater) {
                break 'arguments ListEnd::EmptyArgument;
            }
            let mut after_identifier = false;
            let mut inner: usize = 0;
            'nodes: loop {
                let at = now.cursor;
                let kind = kind_at(kinds, at);
                let start = head + NODE_WIDTH + NODE_WIDTH * inner;
                if !now.pending_greater && is_ordinary(kind) {
                    let read = parse_token(&mut tree[start..], now)?;
                    now = read.next;
                    inner += read.nodes;
                    after_identifier = kind == kinds::IDENTIFIER;
                    continue 'nodes;
                }
                if argument_ends(lists, kind, now.pending_greater) {
                    break 'nodes;
                }
                if kind == kinds::NO_TOKEN_KIND {
                    break 'arguments ListEnd::Unterminated;
                }
                let read = self.parse_node(
                    &mut tree[start..],
                    now,
                    after_identifier,
                    lists,
                    nesting,
                )?;
                now = read.next;
                inner += read.nodes;
                after_identifier = kind == kinds::IDENTIFIER;
            }
            if inner == 0 {
                break 'arguments ListEnd::EmptyArgument;
            }
            put_node(&mut tree[head..], ARGUMENT_NODE, first, inner + 1);
            nodes += inner + 1;
            let at = now.cursor;
            if kind_at(kinds, at) != kinds::COMMA {
                break 'arguments ListEnd::Closed;
            }
            now.cursor = at + 1;
        };
        self.end_list(now, nodes, outcome)
    }
}

// Reads a row: its tree at the front of `tree`, or why it has none.
pub fn parse(kinds: &[u8], cpp: bool, tree: &mut [u32], allowance: u32) -> Parsed
    requires { (length kinds.now ≤ most_tokens) × (numbers_per_token * length kinds.now ≤ length tree.old) }
    ensures { Parses kinds.now allowance (reading cpp kinds.now) result tree.new }
{
    let row = ParsedRow { kinds, cpp };
    let read = row.parse_group(tree, TypeSyntaxParser::new(allowance), None, 0, 0);
    match read {
        Ok(NodesRead { next, nodes }) => {
            let steps = allowance - next.left;
            if next.cursor != kinds.len() || next.pending_greater {
                return Err(ParseError::Refused {
                    error: TypeNameError::UnexpectedTokenAfterTypeName,
                    steps,
                });
            }
            Ok(Tree { nodes, steps })
        }
        Err(Stop::Refused(error, left)) => Err(ParseError::Refused {
            error,
            steps: allowance - left,
        }),
        Err(Stop::Spent) => Err(ParseError::AllowancePassed),
    }
}
