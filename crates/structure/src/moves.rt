// What a check does at a node, and what it comes to: specs/Moves.antt of type_nodes, specs/RepresentedMoves.antt.

ghost use Rattle.std.specs.Prelude.{◌≡◌};
ghost use Rattle.structure.specs.Said.{plain};
ghost use Rattle.structure.specs.RepresentedMoves.{goes_on_if, goes_inside_if};
ghost use Rattle.structure.specs.Allowance.{verdict_within};

// Why a check does not hold: it fails, with the steps that are left, or the allowance did not last.
#[derive(Clone, Copy, PartialEq, Eq)]
pub enum Fault {
    Fails(usize),
    Spent,
}

// What a check comes to: where it holds, the steps that are left.
pub type Verdict = Result<usize, Fault>;

// What is asked of the nodes below a node: an enum, since the function that looks at a node hands it out, which no closure may be.
#[derive(Clone, Copy)]
pub enum Inner {
    TypeName,
    Expression,
    SomeExpression,
    OptionalExpression,
    TypeOrExpression,
    ArrayBound,
    Declarator,
    Arguments,
    DeclaratorOrParameters(bool),
}

// The variables of `validate_c_family_type`.
#[derive(Clone, Copy)]
pub struct TypeLoop {
    pub saw_type_word: bool,
    pub declarator_started: bool,
    pub saw_reference: bool,
}

// The variables of `validate_abstract_declarator`.
#[derive(Clone, Copy)]
pub struct DeclaratorLoop {
    pub saw_operator: bool,
    pub saw_reference: bool,
}

// The variables of `validate_expression`.
#[derive(Clone, Copy)]
pub struct ExpressionLoop {
    pub expects_operand: bool,
    pub expects_name_after_access: bool,
    pub conditional_depth: usize,
}

// The variables of `validate_fortran_type`.
#[derive(Clone, Copy)]
pub struct FortranLoop {
    pub saw_word: bool,
    pub saw_selector: bool,
}

// Below a node of a Fortran type selectors alone are asked for.
#[derive(Clone, Copy)]
pub enum FortranInner {
    Selectors,
}

// What a loop does at a node: return this answer; go on with these variables; or, if the nodes below the node pass what is asked of them, go on with
// these, and else return false.
#[derive(Clone, Copy)]
pub enum Move<S, I> {
    Stop(bool),
    On(S),
    Inside(I, S),
}

pub type TypeMove = Move<TypeLoop, Inner>;

pub type DeclaratorMove = Move<DeclaratorLoop, Inner>;

pub type ExpressionMove = Move<ExpressionLoop, Inner>;

pub type FortranMove = Move<FortranLoop, FortranInner>;

// A condition, tested without a step.
pub fn plain(holds: bool, left: usize) -> Verdict
    ensures { result ≡ verdict_within left (plain holds) }
{
    if holds {
        return Ok(left);
    }
    Err(Fault::Fails(left))
}

// `next`: the loop's variables if it goes on.
pub fn on_if<S: Copy, I: Copy>(ok: bool, next: S) -> Move<S, I>
    ensures { result ≡ goes_on_if ok next }
{
    if ok {
        return Move::On(next);
    }
    Move::Stop(false)
}

pub fn inside_if<S: Copy, I: Copy>(ok: bool, inner: I, next: S) -> Move<S, I>
    ensures { result ≡ goes_inside_if ok inner next }
{
    if ok {
        return Move::Inside(inner, next);
    }
    Move::Stop(false)
}
