//! Expressions over whole numbers, and their values.
ghost use Rattle.std.specs.Prelude.{◌≡◌, ℤ, Bool, ◌-◌, ◌^◌, min, nat_le};
ghost use Rattle.petri_atom.specs.declared.parts.TheConstants.{MAX_WORDS};
ghost use Rattle.petri_atom.specs.Expression.{tree_of, operated, value_of, word_count, all_variables, bare, has_variables_below, is_same_tree, is_true_number, is_turned};

use crate::parts::MAX_WORDS;

/// An operator with two operands.
#[derive(Clone, Copy, Debug, PartialEq, Eq)]
pub enum Operator {
    Add,
    Subtract,
    Multiply,
    Min,
    Max,
    Less,
    LessOrEqual,
    Equal,
    NotEqual,
    And,
    Or,
}

impl Operator {
    /// The value of the operator at two operands.
    pub fn apply(self, left: i64, right: i64) -> i64
        ensures { result ≡ operated self left right }
    {
        match self {
            Operator::Add => left.wrapping_add(right),
            Operator::Subtract => left.wrapping_sub(right),
            Operator::Multiply => left.wrapping_mul(right),
            Operator::Min => left.min(right),
            Operator::Max => left.max(right),
            Operator::Less => i64::from(left < right),
            Operator::LessOrEqual => i64::from(left <= right),
            Operator::Equal => i64::from(left == right),
            Operator::NotEqual => i64::from(left != right),
            Operator::And => i64::from(left != 0 && right != 0),
            Operator::Or => i64::from(left != 0 || right != 0),
        }
    }
}

/// Where the variables of an expression have their values from.
pub trait Valuation<V> {
    ghost value_at: { Self → V → ℤ };

    /// The value of one variable.
    fn value_at(&self, variable: &V) -> i64
        ensures { result ≡ value_at self.now variable.now };
}

/// A test of the variables of an expression.
pub trait VariableTest<V> {
    ghost passes: { Self → V → Bool };

    /// Whether one variable passes the test.
    fn passes(&self, variable: &V) -> bool
        ensures { result ≡ passes self.now variable.now };
}

/// An expression: a number, a variable, or an operator over expressions.
#[derive(Drop)]
pub enum Expression<V> {
    Number(i64),
    Variable(V),
    Not(Box<Expression<V>>),
    Apply(Operator, Box<Expression<V>>, Box<Expression<V>>),
}

impl<V> Expression<V> {
    /// The value of the expression; both operands of an operator are always judged.
    #[cycle(walk)]
    pub fn value<S: Valuation<V>>(&self, variables: &S) -> i64
        ensures { result ≡ value_of (S.value_at variables.now) (tree_of self.now) }
    {
        // Most operands are one word: these take no call.
        match self {
            Expression::Number(number) => *number,
            Expression::Variable(variable) => variables.value_at(variable),
            _ => self.walked(variables),
        }
    }

    /// The same, of an expression of any kind, by a walk over its tree.
    #[cycle(walk)]
    fn walked<S: Valuation<V>>(&self, variables: &S) -> i64
        ensures { result ≡ value_of (S.value_at variables.now) (tree_of self.now) }
    {
        match self {
            Expression::Number(number) => *number,
            Expression::Variable(variable) => variables.value_at(variable),
            Expression::Not(operand) => i64::from(operand.value(variables) == 0),
            Expression::Apply(operator, left, right) => {
                operator.apply(left.value(variables), right.value(variables))
            }
        }
    }

    /// Whether the expression is a number other than 0.
    pub(crate) fn is_true_number(&self) -> bool
        ensures { result ≡ is_true_number (tree_of self.now) }
    {
        match self {
            Expression::Number(number) => *number != 0,
            _ => false,
        }
    }

    /// The expression without the `!` that stand before it.
    pub(crate) fn bare(&self) -> &Expression<V>
        ensures { tree_of result.now ≡ bare (tree_of self.now) }
    {
        match self {
            Expression::Not(operand) => operand.bare(),
            _ => self,
        }
    }

    /// Whether as many `!` stand before the expression as turn its truth round: an odd number.
    pub(crate) fn is_turned(&self) -> bool
        ensures { result ≡ is_turned (tree_of self.now) }
    {
        match self {
            Expression::Not(operand) => !operand.is_turned(),
            _ => false,
        }
    }

    /// Whether each variable of the expression passes the test.
    pub fn all_variables<T: VariableTest<V>>(&self, test: &T) -> bool
        ensures { result ≡ all_variables (T.passes test.now) (tree_of self.now) }
    {
        match self {
            Expression::Number(_) => true,
            Expression::Variable(variable) => test.passes(variable),
            _ => self.all_pass(test),
        }
    }

    /// The same, of an expression of any kind, by a walk over its tree.
    fn all_pass<T: VariableTest<V>>(&self, test: &T) -> bool
        ensures { result ≡ all_variables (T.passes test.now) (tree_of self.now) }
    {
        match self {
            Expression::Number(_) => true,
            Expression::Variable(variable) => test.passes(variable),
            Expression::Not(operand) => operand.all_pass(test),
            Expression::Apply(_, left, right) => left.all_pass(test) & right.all_pass(test),
        }
    }

    /// Whether the expression is within the limit of words, [`MAX_WORDS`](crate::MAX_WORDS).
    pub fn is_small(&self) -> bool
        ensures { result ≡ nat_le (word_count (tree_of self.now)) MAX_WORDS }
    {
        self.word_count() <= MAX_WORDS
    }

    /// How many words the expression is written with, at most `usize::MAX`.
    pub fn word_count(&self) -> usize
        ensures { result ≡ min (word_count (tree_of self.now)) (2 ^ 64 - 1) }
    {
        match self {
            Expression::Number(_) => 1,
            Expression::Variable(_) => 1,
            Expression::Not(operand) => operand.word_count().saturating_add(1),
            Expression::Apply(_, left, right) => left
                .word_count()
                .saturating_add(right.word_count())
                .saturating_add(1),
        }
    }
}

impl Expression<u8> {
    /// Whether each variable of the expression has a number below the bound.
    pub fn has_variables_below(&self, bound: usize) -> bool
        ensures { result ≡ has_variables_below bound (tree_of self.now) }
    {
        match self {
            Expression::Number(_) => true,
            Expression::Variable(variable) => usize::from(*variable) < bound,
            Expression::Not(operand) => operand.has_variables_below(bound),
            Expression::Apply(_, left, right) => {
                left.has_variables_below(bound) & right.has_variables_below(bound)
            }
        }
    }

    /// Whether the two expressions are the same tree.
    pub fn same(&self, other: &Expression<u8>) -> bool
        ensures { result ≡ is_same_tree (tree_of self.now) (tree_of other.now) }
    {
        match (self, other) {
            (Expression::Number(mine), Expression::Number(theirs)) => mine == theirs,
            (Expression::Variable(mine), Expression::Variable(theirs)) => mine == theirs,
            (Expression::Not(mine), Expression::Not(theirs)) => mine.same(theirs),
            (Expression::Apply(mine, left, right), Expression::Apply(theirs, first, second)) => {
                (mine == theirs) & left.same(first) & right.same(second)
            }
            _ => false,
        }
    }
}
