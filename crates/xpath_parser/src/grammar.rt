// The rules of paths and expressions. Those that hold expressions take the parser of these as a parameter, so that each is proved by itself.
ghost use Rattle.std.specs.Prelude.{◌≡◌, ◌≤◌, ◌<◌, [], OnOk, IfOk};
ghost use Rattle.xpath_parser.specs.Input.{Reads};
ghost use Rattle.xpath_parser.specs.inside.Nests.{Nests};
ghost use Rattle.xpath_parser.specs.Grammar as spec;

use crate::lex::Kind;
use crate::node_tests::{named_test, node_test};
use crate::refusal::{Refusal, What};
use crate::tokens::Tokens;
use crate::words::{Function, axis_named, function_named, is_node_type};
use dewey_labels::{List, NoMemory, Text};
use path_model::{Axis, Expr, NodeTest, Op, Step, XPath};
use std::alloc::Global;

/// How many parts may nest: predicates, parentheses, calls and unary minuses.
const MOST_NESTED: usize = 50;

/// The levels of expressions: unary ones, those with all operators, and a node set alone.
const UNARY: u8 = 0;

const ANY: u8 = 6;

const NODE_SET: u8 = 7;

#[derive(Clone, Copy)]
pub struct Grammar<F> {
    alloc: Global,
    /// How many nested parts may still be opened.
    room: usize,
    expression: F,
}

impl<F: Fn(Global, &mut Tokens<'_>, usize, u8) -> Result<Expr, Refusal>> Grammar<F> {
    /// An expression in a nested part.
    fn inner(&self, tokens: &mut Tokens<'_>, level: u8) -> Result<Expr, Refusal>
        requires room { 0 < self.now.room }
        requires nests { Nests self.now.room (F.pre self.now.expression) (F.post self.now.expression) }
        ensures { Reads (spec.inside self.now.room level tokens.old) result tokens.new }
    {
        (self.expression)(self.alloc, tokens, self.room - 1, level)
    }

    /// Takes the token that opens a nested part.
    #[tactic(auto, unfolding(crate::specs::Grammar::open_part))]
    fn open_part(&self, tokens: &mut Tokens<'_>) -> Result<(), Refusal>
        ensures reads { Reads (spec.open_part self.now.room (spec.inside self.now.room) tokens.old) result tokens.new }
        ensures room { OnOk result (0 < self.now.room) }
    {
        if self.room == 0 {
            return Err(Refusal::Deep(tokens.left()));
        }
        tokens.take();
        Ok(())
    }

    fn predicates(&self, tokens: &mut Tokens<'_>) -> Result<List<Expr>, Refusal>
        requires { Nests self.now.room (F.pre self.now.expression) (F.post self.now.expression) }
        ensures { Reads (spec.predicates self.now.room (spec.inside self.now.room) tokens.old) result tokens.new }
    {
        let mut found = List::new(self.alloc);
        for _turn in 0..tokens.left() {
            if !tokens.sees(Kind::OpenBracket) {
                return Ok(found);
            }
            self.open_part(tokens)?;
            let test = self.inner(tokens, ANY)?;
            tokens.close(Kind::CloseBracket)?;
            found.push(test)?;
        }
        Ok(found)
    }

    /// The rest of a step, behind its axis.
    #[tactic(auto, unfolding(crate::specs::Grammar::step_along))]
    fn step_along(&self, tokens: &mut Tokens<'_>, axis: Axis) -> Result<Step, Refusal>
        requires { Nests self.now.room (F.pre self.now.expression) (F.post self.now.expression) }
        ensures { Reads (spec.step_along self.now.room (spec.inside self.now.room) axis tokens.old) result tokens.new }
    {
        let test = node_test(self.alloc, tokens)?;
        let tests = self.predicates(tokens)?;
        Ok(Step { axis, test, tests })
    }

    /// A step at the `::` behind a name.
    #[tactic(auto, unfolding(crate::specs::Grammar::step_on))]
    fn step_on(&self, tokens: &mut Tokens<'_>, name: &str) -> Result<Step, Refusal>
        requires { Nests self.now.room (F.pre self.now.expression) (F.post self.now.expression) }
        ensures { Reads (spec.step_on self.now.room (spec.inside self.now.room) name.now tokens.old) result tokens.new }
    {
        let Some(axis) = axis_named(name) else {
            if name == "namespace" {
                return Err(tokens.unsupported(What::Axis));
            }
            return Err(tokens.refuse());
        };
        tokens.take();
        self.step_along(tokens, axis)
    }

    /// A step behind the name that begins it.
    #[tactic(auto, unfolding(crate::specs::Grammar::named_step))]
    fn named_step(
        &self,
        tokens: &mut Tokens<'_>,
        call: Option<What>,
        name: Text,
    ) -> Result<Step, Refusal>
        requires { Nests self.now.room (F.pre self.now.expression) (F.post self.now.expression) }
        ensures { Reads (spec.named_step self.now.room (spec.inside self.now.room) call name tokens.old) result tokens.new }
    {
        if tokens.sees(Kind::DoubleColon) {
            return self.step_on(tokens, name.as_str());
        }
        let test = named_test(tokens, call, name)?;
        let tests = self.predicates(tokens)?;
        Ok(Step {
            axis: Axis::Child,
            test,
            tests,
        })
    }

    #[tactic(auto, unfolding(crate::specs::Grammar::step))]
    fn step(&self, tokens: &mut Tokens<'_>, call: Option<What>) -> Result<Step, Refusal>
        requires { Nests self.now.room (F.pre self.now.expression) (F.post self.now.expression) }
        ensures { Reads (spec.step self.now.room (spec.inside self.now.room) call tokens.old) result tokens.new }
    {
        match tokens.peek() {
            Kind::Dot => {
                tokens.take();
                Ok(self.any_node(Axis::SelfNode))
            }
            Kind::DoubleDot => {
                tokens.take();
                Ok(self.any_node(Axis::Parent))
            }
            Kind::At => {
                tokens.take();
                self.step_along(tokens, Axis::Attribute)
            }
            Kind::Name => {
                let name = tokens.take_name(self.alloc)?;
                self.named_step(tokens, call, name)
            }
            _ => self.step_along(tokens, Axis::Child),
        }
    }

    /// All nodes of an axis.
    fn any_node(&self, axis: Axis) -> Step
        ensures { result ≡ spec.make_step axis NodeTest.Node [] }
    {
        Step {
            axis,
            test: NodeTest::Node,
            tests: List::new(self.alloc),
        }
    }

    /// Further steps behind some.
    fn steps(&self, tokens: &mut Tokens<'_>, mut found: List<Step>) -> Result<List<Step>, Refusal>
        requires { Nests self.now.room (F.pre self.now.expression) (F.post self.now.expression) }
        ensures { Reads (spec.steps self.now.room (spec.inside self.now.room) found tokens.old) result tokens.new }
    {
        for _turn in 0..tokens.left() {
            if tokens.sees(Kind::Slash) {
                tokens.take();
                let step = self.step(tokens, None)?;
                found.push(step)?;
                continue;
            }
            if !tokens.sees(Kind::DoubleSlash) {
                return Ok(found);
            }
            tokens.take();
            let step = self.step(tokens, None)?;
            found.push(self.any_node(Axis::DescendantOrSelf))?;
            found.push(step)?;
        }
        Ok(found)
    }

    /// A step and those behind it, behind some.
    #[tactic(auto, unfolding(crate::specs::Grammar::steps_on))]
    fn steps_on(
        &self,
        tokens: &mut Tokens<'_>,
        call: Option<What>,
        mut found: List<Step>,
    ) -> Result<List<Step>, Refusal>
        requires { Nests self.now.room (F.pre self.now.expression) (F.post self.now.expression) }
        ensures { Reads (spec.steps_on self.now.room (spec.inside self.now.room) call found tokens.old) result tokens.new }
    {
        let step = self.step(tokens, call)?;
        found.push(step)?;
        self.steps(tokens, found)
    }

    /// A path behind the `/` that begins it.
    #[tactic(auto, unfolding(crate::specs::Grammar::from_document))]
    fn from_document(&self, tokens: &mut Tokens<'_>) -> Result<XPath, Refusal>
        requires { Nests self.now.room (F.pre self.now.expression) (F.post self.now.expression) }
        ensures { Reads (spec.from_document self.now.room (spec.inside self.now.room) tokens.old) result tokens.new }
    {
        let none = List::new(self.alloc);
        if !begins_step(tokens.peek()) {
            return Ok(XPath {
                absolute: true,
                steps: none,
            });
        }
        let steps = self.steps_on(tokens, None, none)?;
        Ok(XPath {
            absolute: true,
            steps,
        })
    }

    /// A path behind the `//` that begins it.
    #[tactic(auto, unfolding(crate::specs::Grammar::from_anywhere))]
    fn from_anywhere(&self, tokens: &mut Tokens<'_>) -> Result<XPath, Refusal>
        requires { Nests self.now.room (F.pre self.now.expression) (F.post self.now.expression) }
        ensures { Reads (spec.from_anywhere self.now.room (spec.inside self.now.room) tokens.old) result tokens.new }
    {
        let mut first = List::new(self.alloc);
        first.push(self.any_node(Axis::DescendantOrSelf))?;
        let steps = self.steps_on(tokens, None, first)?;
        Ok(XPath {
            absolute: true,
            steps,
        })
    }

    #[tactic(auto, unfolding(crate::specs::Grammar::path))]
    fn path(&self, tokens: &mut Tokens<'_>, call: Option<What>) -> Result<XPath, Refusal>
        requires { Nests self.now.room (F.pre self.now.expression) (F.post self.now.expression) }
        ensures { Reads (spec.path self.now.room (spec.inside self.now.room) call tokens.old) result tokens.new }
    {
        match tokens.peek() {
            Kind::Slash => {
                tokens.take();
                self.from_document(tokens)
            }
            Kind::DoubleSlash => {
                tokens.take();
                self.from_anywhere(tokens)
            }
            _ => {
                let steps = self.steps_on(tokens, call, List::new(self.alloc))?;
                Ok(XPath {
                    absolute: false,
                    steps,
                })
            }
        }
    }

    /// A path where it alone may stand: another expression is refused for that.
    #[tactic(auto, unfolding(crate::specs::Grammar::lone_path))]
    fn lone_path(&self, tokens: &mut Tokens<'_>, what: What) -> Result<XPath, Refusal>
        requires { Nests self.now.room (F.pre self.now.expression) (F.post self.now.expression) }
        ensures { Reads (spec.lone_path self.now.room (spec.inside self.now.room) what tokens.old) result tokens.new }
    {
        if begins_expression(tokens.peek()) {
            return Err(tokens.unsupported(what));
        }
        self.path(tokens, Some(what))
    }

    /// A node set as an argument.
    #[tactic(auto, unfolding(crate::specs::Grammar::argument_path))]
    fn argument_path(&self, tokens: &mut Tokens<'_>) -> Result<Expr, Refusal>
        requires { Nests self.now.room (F.pre self.now.expression) (F.post self.now.expression) }
        ensures { Reads (spec.argument_path self.now.room (spec.inside self.now.room) tokens.old) result tokens.new }
    {
        let path = self.lone_path(tokens, What::Argument)?;
        if tokens.is_foreign() {
            return Err(tokens.unsupported(What::Operator));
        }
        if tokens.is_operator() {
            return Err(tokens.unsupported(What::Argument));
        }
        Ok(Expr::Path(path))
    }

    /// The arguments of a function, one at least.
    fn some_arguments(
        &self,
        tokens: &mut Tokens<'_>,
        function: Function,
    ) -> Result<List<Expr>, Refusal>
        requires room { 0 < self.now.room }
        requires nests { Nests self.now.room (F.pre self.now.expression) (F.post self.now.expression) }
        ensures { Reads (spec.some_arguments self.now.room (spec.inside self.now.room) function tokens.old) result tokens.new }
    {
        let level = if function.takes_nodes { NODE_SET } else { ANY };
        let mut found = List::new(self.alloc);
        for _turn in 0..tokens.left() {
            let argument = self.inner(tokens, level)?;
            found.push(argument)?;
            if function.least <= found.len() && tokens.sees(Kind::Close) {
                tokens.take();
                return Ok(found);
            }
            if found.len() >= function.most || !tokens.sees(Kind::Comma) {
                return Err(tokens.stray());
            }
            tokens.take();
        }
        Err(tokens.stray())
    }

    /// The arguments of a function, behind its `(`.
    #[tactic(auto, unfolding(crate::specs::Grammar::arguments))]
    fn arguments(&self, tokens: &mut Tokens<'_>, function: Function) -> Result<List<Expr>, Refusal>
        requires room { 0 < self.now.room }
        requires nests { Nests self.now.room (F.pre self.now.expression) (F.post self.now.expression) }
        ensures { Reads (spec.arguments self.now.room (spec.inside self.now.room) function tokens.old) result tokens.new }
    {
        if function.least == 0 && tokens.sees(Kind::Close) {
            tokens.take();
            return Ok(List::new(self.alloc));
        }
        if function.most == 0 {
            return Err(tokens.refuse());
        }
        self.some_arguments(tokens, function)
    }

    /// A call, at its `(`.
    #[tactic(auto, unfolding(crate::specs::Grammar::call))]
    fn call(&self, tokens: &mut Tokens<'_>, name: &str) -> Result<Expr, Refusal>
        requires { Nests self.now.room (F.pre self.now.expression) (F.post self.now.expression) }
        ensures { Reads (spec.call self.now.room (spec.inside self.now.room) name.now tokens.old) result tokens.new }
    {
        let Some(function) = function_named(name) else {
            return Err(tokens.unsupported(What::Function));
        };
        self.open_part(tokens)?;
        let operands = self.arguments(tokens, function)?;
        tokens.unfiltered(Expr::Apply(function.op, operands))
    }

    /// An operand behind the name that begins it.
    #[tactic(auto, unfolding(crate::specs::Grammar::named_operand))]
    fn named_operand(&self, tokens: &mut Tokens<'_>, name: Text) -> Result<Expr, Refusal>
        requires { Nests self.now.room (F.pre self.now.expression) (F.post self.now.expression) }
        ensures { Reads (spec.named_operand self.now.room (spec.inside self.now.room) name tokens.old) result tokens.new }
    {
        if tokens.sees(Kind::Open) && !is_node_type(name.as_str()) {
            return self.call(tokens, name.as_str());
        }
        let first = self.named_step(tokens, None, name)?;
        let mut found = List::new(self.alloc);
        found.push(first)?;
        let steps = self.steps(tokens, found)?;
        Ok(Expr::Path(XPath {
            absolute: false,
            steps,
        }))
    }

    #[tactic(auto, unfolding(crate::specs::Grammar::parenthesized))]
    fn parenthesized(&self, tokens: &mut Tokens<'_>) -> Result<Expr, Refusal>
        requires { Nests self.now.room (F.pre self.now.expression) (F.post self.now.expression) }
        ensures { Reads (spec.parenthesized self.now.room (spec.inside self.now.room) tokens.old) result tokens.new }
    {
        self.open_part(tokens)?;
        let inner = self.inner(tokens, ANY)?;
        tokens.close(Kind::Close)?;
        tokens.unfiltered(inner)
    }

    #[tactic(auto, unfolding(crate::specs::Grammar::operand))]
    fn operand(&self, tokens: &mut Tokens<'_>) -> Result<Expr, Refusal>
        requires { Nests self.now.room (F.pre self.now.expression) (F.post self.now.expression) }
        ensures { Reads (spec.operand self.now.room (spec.inside self.now.room) tokens.old) result tokens.new }
    {
        match tokens.peek() {
            Kind::Number => tokens.number(),
            Kind::Literal => tokens.literal(self.alloc),
            Kind::Open => self.parenthesized(tokens),
            Kind::Name => {
                let name = tokens.take_name(self.alloc)?;
                self.named_operand(tokens, name)
            }
            Kind::Fraction => Err(tokens.unsupported(What::Fraction)),
            Kind::Variable => Err(tokens.unsupported(What::Variable)),
            _ => Ok(Expr::Path(self.path(tokens, None)?)),
        }
    }

    #[tactic(auto, unfolding(crate::specs::Grammar::unary))]
    fn unary(&self, tokens: &mut Tokens<'_>) -> Result<Expr, Refusal>
        requires { Nests self.now.room (F.pre self.now.expression) (F.post self.now.expression) }
        ensures { Reads (spec.unary self.now.room (spec.inside self.now.room) tokens.old) result tokens.new }
    {
        if !tokens.sees(Kind::Minus) {
            return self.operand(tokens);
        }
        self.open_part(tokens)?;
        let operand = self.inner(tokens, UNARY)?;
        let mut operands = List::new(self.alloc);
        operands.push(operand)?;
        Ok(Expr::Apply(Op::Negate, operands))
    }

    /// An expression of a level of precedence: operands of the level below with operators between them.
    fn chain(&self, tokens: &mut Tokens<'_>, level: u8) -> Result<Expr, Refusal>
        requires { Nests self.now.room (F.pre self.now.expression) (F.post self.now.expression) }
        ensures { Reads (spec.chain self.now.room (spec.inside self.now.room) level tokens.old) result tokens.new }
    {
        if level == 0 {
            return self.unary(tokens);
        }
        let mut last = self.chain(tokens, level - 1)?;
        let mut operands = List::new(self.alloc);
        let mut operators = List::new(self.alloc);
        for _turn in 0..tokens.left() {
            let Some(op) = tokens.operator(level) else {
                return Ok(chain_of(operands, operators, last)?);
            };
            tokens.take();
            let next = self.chain(tokens, level - 1)?;
            operands.push(last)?;
            operators.push(op)?;
            last = next;
        }
        Ok(chain_of(operands, operators, last)?)
    }

    /// An expression of a level of precedence, or a node set alone.
    #[tactic(auto, unfolding(crate::specs::Grammar::expression_of))]
    fn expression_of(&self, tokens: &mut Tokens<'_>, level: u8) -> Result<Expr, Refusal>
        requires { Nests self.now.room (F.pre self.now.expression) (F.post self.now.expression) }
        ensures { Reads (spec.expression_of self.now.room (spec.inside self.now.room) level tokens.old) result tokens.new }
    {
        if level == NODE_SET {
            self.argument_path(tokens)
        } else {
            self.chain(tokens, level)
        }
    }
}

fn begins_step(kind: Kind) -> bool
    ensures { result ≡ spec.begins_step kind }
{
    match kind {
        Kind::Dot | Kind::DoubleDot | Kind::At | Kind::Name | Kind::Prefix | Kind::Star => true,
        _ => false,
    }
}

fn begins_expression(kind: Kind) -> bool
    ensures { result ≡ spec.begins_expression kind }
{
    match kind {
        Kind::Number | Kind::Fraction | Kind::Literal | Kind::Variable | Kind::Open | Kind::Minus =>
            true,
        _ => false,
    }
}

/// Operands with operators between them, or the last one alone where there is none.
fn chain_of(mut operands: List<Expr>, operators: List<Op>, last: Expr) -> Result<Expr, NoMemory>
    ensures { IfOk result (λ e. e ≡ spec.chain_of operands operators last) }
{
    if operators.is_empty() {
        return Ok(last);
    }
    operands.push(last)?;
    Ok(Expr::Chain {
        operands,
        operators,
    })
}

/// An expression with room for so many nested parts.
fn expression(
    alloc: Global,
    tokens: &mut Tokens<'_>,
    room: usize,
    level: u8,
) -> Result<Expr, Refusal>
    ensures { Reads (spec.expression room level tokens.old) result tokens.new }
{
    Grammar {
        alloc,
        room,
        expression,
    }
    .expression_of(tokens, level)
}

/// A path, and nothing behind it.
pub fn whole(alloc: Global, tokens: &mut Tokens<'_>) -> Result<XPath, Refusal>
    ensures { Reads (spec.whole tokens.old) result tokens.new }
{
    let path = Grammar {
        alloc,
        room: MOST_NESTED,
        expression,
    }
    .lone_path(tokens, What::Expression)?;
    if tokens.sees(Kind::End) {
        return Ok(path);
    }
    if tokens.is_foreign() || tokens.is_operator() {
        return Err(tokens.unsupported(What::Expression));
    }
    Err(tokens.refuse())
}
