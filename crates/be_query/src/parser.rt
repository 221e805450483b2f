//! Reads the tokens of a query from left to right.
//!
//! Every open `(` has a level, which holds the left sides of those `||` and `&&` that still need
//! their right sides, and counts the `!` that still need their operand.
//!
//! A `!` is applied while its operand is read: inside an odd number of `!`, each comparison and
//! each connective is built as its complement. Nothing here recurses, and no finished tree is
//! visited again.
ghost use Rattle.std.specs.Prelude.{false, true, ℕ, ◌≡◌, MatchOption, IfNone, IfSome, [], ◌++◌};
ghost use Rattle.std.specs.Prelude.{encode_utf8, string_bytes, Some, None};
ghost use Rattle.std.specs.Prelude.{IfOk, IfErr, ◌<◌, ◌≤◌, ◌+◌, ◌^◌, length};
ghost use Rattle.std.specs.Result.{is_ok};
ghost use Rattle.std.specs.Str.{chars};
ghost use Rattle.be_pattern.specs.Parse.{pattern};
ghost use Rattle.be_value.specs.Name.{name_from, has_nul};
ghost use Rattle.be_query.specs.Building.{Operands, Operators, Values, Joints, fresh};
ghost use Rattle.be_query.specs.Building.{turned_operator, conjunction, joined};
ghost use Rattle.be_query.specs.Building.{ended_level, with_side, with_operand, State};
ghost use Rattle.be_query.specs.Grammar.{literal_of};
ghost use Rattle.be_query.specs.Faults.{bad_pattern};
ghost use Rattle.be_query.specs.Tokens.{is_name, plain};
ghost use Rattle.be_query.specs.View.{IsClean, IsMemory, text_len, literal, formula, level_seen};
ghost use Rattle.be_query.specs.View.{side_of, stage_of, token_of, IsCounted, TakesToken, Refuses};

use crate::token::Token;
use crate::tree::{Cmp, Comparison, Literal, Tree};
use be_pattern::Pattern;
use be_pattern::matching::split_first_char;
use be_value::{Name, Refusal};
use std::alloc::{AllocError, Global};
use std::mem;

/// The maximum number of `(` and `!` that may be open at a time.
const MAX_OPEN: usize = 64;

/// The maximum length of a name in bytes.
const MAX_NAME: usize = 63;

/// The maximum number of comparisons in a query.
pub(crate) const MAX_COMPARISONS: usize = 256;

/// The unfinished parts inside one pair of parentheses.
#[derive(Drop)]
pub(crate) struct Level {
    /// Whether an odd number of `!` applies to the level.
    negated: bool,
    /// Whether an odd number of `!` applies to the next operand.
    operand_negated: bool,
    /// The left side of an unfinished `||`.
    or_left: Option<Box<Tree>>,
    /// The left side of an unfinished `&&`.
    and_left: Option<Box<Tree>>,
    /// The number of `!` that still need their operand.
    negations: usize,
}

/// What may come next, along with the name or tree that has been read. A name is kept as it appears
/// in the text, because that is cheap to move. The `Name` is created only when its comparison is
/// complete.
#[derive(Drop)]
pub(crate) enum Stage<'a> {
    Operand,
    Operator(&'a str),
    Value(&'a str, Cmp),
    Joint(Box<Tree>),
}

/// The levels and counts that are open around the next token.
#[derive(Drop)]
pub(crate) struct Context {
    level: Level,
    /// The levels around the innermost one, from the outermost to the innermost.
    outer: Vec<Level>,
    /// The number of open `(` and `!`.
    depth: usize,
    comparisons: usize,
}

/// The state after reading a query up to some token.
#[derive(Drop)]
pub(crate) struct Parser<'a> {
    pub(crate) stage: Stage<'a>,
    pub(crate) context: Context,
}

impl Level {
    /// Creates an empty level. `negated` says whether it is inside an odd number of `!`.
    fn new(negated: bool) -> Level
        ensures { level_seen result ≡ fresh negated }
    {
        Level {
            negated,
            operand_negated: negated,
            or_left: None,
            and_left: None,
            negations: 0,
        }
    }
}

impl<'a> Stage<'a> {
    ghost use Rattle.be_query.specs.Faults.{broken_at};
    ghost use Rattle.be_query.specs.Building.{awaited_at};

    /// Returns the error for a name or value that begins at `at` and is cut off `len` bytes after
    /// its first byte.
    pub(crate) fn broken(&self, at: usize, len: usize) -> Refusal
        requires { at + len < 2 ^ 64 }
        ensures { result ≡ Refusal.Syntax (broken_at (awaited_at (stage_of self.now)) at len) }
    {
        match self {
            Stage::Operand => Refusal::Syntax(at + len),
            Stage::Value(_, _) => Refusal::Syntax(at + len),
            Stage::Operator(_) => Refusal::Syntax(at),
            Stage::Joint(_) => Refusal::Syntax(at),
        }
    }
}

impl Context {
    ghost use Rattle.be_query.specs.Building.{awaited_at, marks_of, tree_at};
    ghost use Rattle.be_query.specs.Faults.{ends};
    ghost use Rattle.be_query.specs.View.{outer_of};

    /// Accepts the token at `at`, whose own text begins at `start`, and returns what may come next.
    pub(crate) fn take<'a>(
        &mut self,
        alloc: Global,
        stage: Stage<'a>,
        at: usize,
        start: usize,
        token: Token<'a>,
    ) -> Result<Stage<'a>, Refusal>
        requires counted { IsCounted (stage_of stage) self.now }
        requires fits { start + text_len (token_of token) < 2 ^ 64 }
        requires clean { IsClean (token_of token) }
        ensures ok { IfOk result (λ s. TakesToken (stage_of stage.entry) self.old at start
            (token_of token.entry) s self.new) }
        ensures err { IfErr result (Refuses (stage_of stage.entry) self.old at start
            (token_of token.entry)) }
    {
        match stage {
            Stage::Operand => take_operand(alloc, self, at, token),
            Stage::Operator(name) => take_operator(name, self, at, token),
            Stage::Value(name, op) => take_value(alloc, name, op, self, at, start, token),
            Stage::Joint(tree) => take_joint(alloc, tree, self, at, token),
        }
    }

    /// Returns the tree at the end of the text, which is `len` bytes long. No token may be accepted
    /// after this.
    pub(crate) fn finish(
        &mut self,
        alloc: Global,
        stage: Stage<'_>,
        len: usize,
    ) -> Result<Box<Tree>, Refusal>
        requires { IsCounted (stage_of stage) self.now }
        ensures ok { IfOk result (λ t. tree_at (stage_of stage.entry) (level_seen self.old.level)
            (outer_of self.old) ≡ Some (formula t.value)) }
        ensures ends { IfOk result (λ t. ends (awaited_at (stage_of stage.entry))
            (marks_of (level_seen self.old.level) (outer_of self.old)) len ≡ None) }
        ensures err { IfErr result (λ e. IsMemory e
            (ends (awaited_at (stage_of stage.entry))
            (marks_of (level_seen self.old.level) (outer_of self.old)) len ≡ Some e)) }
    {
        match stage {
            Stage::Joint(tree) => {
                if !self.outer.is_empty() {
                    return Err(Refusal::Syntax(len));
                }
                Ok(end_side(alloc, &mut self.level, tree)?)
            }
            Stage::Operand => Err(Refusal::Syntax(len)),
            Stage::Operator(_) => Err(Refusal::Syntax(len)),
            Stage::Value(_, _) => Err(Refusal::Syntax(len)),
        }
    }
}

impl<'a> Parser<'a> {
    ghost use Rattle.be_query.specs.Building.{nothing_built};
    ghost use Rattle.be_query.specs.View.{parser_state};

    /// Creates a parser at the start of the text.
    pub(crate) fn new(alloc: Global) -> Parser<'a>
        ensures counted { IsCounted (stage_of result.stage) result.context }
        ensures start { parser_state result ≡ nothing_built }
        ensures none { result.context.comparisons ≡ 0 }
    {
        let context = Context {
            level: Level::new(false),
            outer: Vec::new(alloc),
            depth: 0,
            comparisons: 0,
        };
        Parser {
            stage: Stage::Operand,
            context,
        }
    }
}

/// Accepts a token where an operand begins.
fn take_operand<'a>(
    alloc: Global,
    context: &mut Context,
    at: usize,
    token: Token<'a>,
) -> Result<Stage<'a>, Refusal>
    requires counted { IsCounted Operands context.now }
    requires clean { IsClean (token_of token) }
    ensures ok { IfOk result (λ s. (start : ℕ)
        → TakesToken Operands context.old at start (token_of token.entry) s context.new) }
    ensures err { IfErr result (λ e. (start : ℕ)
        → Refuses Operands context.old at start (token_of token.entry) e) }
{
    match token {
        Token::Open => {
            if context.depth >= MAX_OPEN {
                return Err(Refusal::TooDeep);
            }
            let inner = Level::new(context.level.operand_negated);
            let level = mem::replace(&mut context.level, inner);
            context.outer.push(level)?;
            context.depth += 1;
            Ok(Stage::Operand)
        }
        Token::Bang => {
            if context.depth >= MAX_OPEN {
                return Err(Refusal::TooDeep);
            }
            context.level.operand_negated = !context.level.operand_negated;
            context.level.negations += 1;
            context.depth += 1;
            Ok(Stage::Operand)
        }
        Token::Text(raw) => {
            if encodes_name(alloc, raw)? {
                Ok(Stage::Operator(raw))
            } else {
                Err(Refusal::Syntax(at))
            }
        }
        Token::Close | Token::Both | Token::Either | Token::Compares(_) => Err(Refusal::Syntax(at)),
    }
}

/// Accepts a token where an operator must follow.
fn take_operator<'a>(
    raw: &'a str,
    context: &mut Context,
    at: usize,
    token: Token<'a>,
) -> Result<Stage<'a>, Refusal>
    requires { IsCounted (Operators (plain raw.now)) context.now }
    ensures ok { IfOk result (λ s. (start : ℕ)
        → TakesToken (Operators (plain raw.now)) context.old at start (token_of token.entry) s
        context.new) }
    ensures err { IfErr result (λ e. (start : ℕ)
        → Refuses (Operators (plain raw.now)) context.old at start (token_of token.entry) e) }
{
    match token {
        Token::Compares(op) => Ok(Stage::Value(raw, op)),
        _ => Err(Refusal::Syntax(at)),
    }
}

/// Accepts a token where a value must follow. The token's own text begins at `start`.
fn take_value<'a>(
    alloc: Global,
    name: &'a str,
    op: Cmp,
    context: &mut Context,
    at: usize,
    start: usize,
    token: Token<'a>,
) -> Result<Stage<'a>, Refusal>
    requires counted { IsCounted (Values (plain name.now) op) context.now }
    requires fits { start + text_len (token_of token) < 2 ^ 64 }
    ensures ok { IfOk result (λ s. TakesToken (Values (plain name.now) op) context.old at start
        (token_of token.entry) s context.new) }
    ensures err { IfErr result (Refuses (Values (plain name.now) op) context.old at start
        (token_of token.entry)) }
{
    let Token::Text(raw) = token else {
        return Err(Refusal::Syntax(at));
    };
    let read = read_literal(alloc, op, raw)?;
    let literal = match read {
        Ok(literal) => literal,
        Err(place) => return Err(Refusal::BadPattern(start + place)),
    };
    if context.comparisons >= MAX_COMPARISONS {
        return Err(Refusal::TooMany);
    }
    let made = read_name(alloc, name)?;
    let Some(name) = made else {
        return Err(Refusal::Syntax(at));
    };
    let ended = context.level.negations;
    let op = turned_operator(context.level.operand_negated, op);
    let leaf = Box::new(alloc, Tree::Leaf(Comparison { name, op, literal }))?;
    let tree = end_operand(alloc, &mut context.level, leaf)?;
    context.depth -= ended;
    context.comparisons += 1;
    Ok(Stage::Joint(tree))
}

/// Accepts a token after an operand.
fn take_joint<'a>(
    alloc: Global,
    tree: Box<Tree>,
    context: &mut Context,
    at: usize,
    token: Token<'a>,
) -> Result<Stage<'a>, Refusal>
    requires { IsCounted (Joints (formula tree.value)) context.now }
    ensures ok { IfOk result (λ s. (start : ℕ)
        → TakesToken (Joints (formula tree.value)) context.old at start (token_of token.entry) s
        context.new) }
    ensures err { IfErr result (λ e. (start : ℕ)
        → Refuses (Joints (formula tree.value)) context.old at start (token_of token.entry) e) }
{
    match token {
        Token::Both => {
            context.level.and_left = Some(tree);
            Ok(Stage::Operand)
        }
        Token::Either => {
            let side = end_side(alloc, &mut context.level, tree)?;
            context.level.or_left = Some(side);
            Ok(Stage::Operand)
        }
        Token::Close => {
            let side = end_side(alloc, &mut context.level, tree)?;
            let Some(level) = context.outer.pop() else {
                return Err(Refusal::Syntax(at));
            };
            context.level = level;
            let ended = 1 + context.level.negations;
            let tree = end_operand(alloc, &mut context.level, side)?;
            context.depth -= ended;
            Ok(Stage::Joint(tree))
        }
        Token::Open | Token::Bang | Token::Compares(_) | Token::Text(_) => Err(Refusal::Syntax(at)),
    }
}

#[tactic(auto, using(crate::proofs::Short::short_name))]
/// Returns `true` if `raw`, which contains no NUL, encodes a name. Unescaping only shortens a
/// string, so one of 1 to 63 bytes doesn't have to be unescaped.
fn encodes_name(alloc: Global, raw: &str) -> Result<bool, AllocError>
    requires { has_nul raw.now ≡ false }
    ensures { IfOk result (λ b. is_name raw.now ≡ b) }
{
    let len = raw.len();
    if len > 0 && len <= MAX_NAME {
        return Ok(true);
    }
    let text = unescape(alloc, raw)?;
    match name_of(&text) {
        Some(_) => Ok(true),
        None => Ok(false),
    }
}

/// Returns the name that `raw` encodes, if it encodes one.
fn read_name(alloc: Global, raw: &str) -> Result<Option<Name>, AllocError>
    ensures { IfOk result (λ o. MatchOption o (is_name raw.now ≡ false)
        (λ n. (n ≡ plain raw.now) × (is_name raw.now ≡ true))) }
{
    if is_plain(raw) {
        return Ok(name_of(raw));
    }
    let text = unescape(alloc, raw)?;
    Ok(name_of(&text))
}

/// Returns the string as a name, if it is a valid one.
fn name_of(text: &str) -> Option<Name>
    ensures { MatchOption result (is_ok (name_from text.now) ≡ false)
        (λ n. (n ≡ text.now) × (is_ok (name_from text.now) ≡ true)) }
{
    match Name::new(text) {
        Ok(name) => Some(name),
        Err(_) => None,
    }
}

/// Returns `true` if the string contains no backslash.
fn is_plain(raw: &str) -> bool
    ensures { result ≡ true → plain raw.now ≡ raw.now }
{
    !raw.as_bytes().contains(&b'\\')
}

/// Returns the first character, unescaped, and the text after it.
fn split_plain(text: &str) -> Option<(char, &str)>
    ensures none { IfNone result (plain text.now ≡ []) }
    ensures some { IfSome result (λ p. plain text.now ≡ encode_utf8 p.0 ++ plain p.1.now) }
    ensures shorter { IfSome result (λ p. length p.1.now < length text.now) }
{
    let Some((c, after)) = split_first_char(text) else {
        return None;
    };
    if c != '\\' {
        return Some((c, after));
    }
    match split_first_char(after) {
        Some((escaped, beyond)) => Some((escaped, beyond)),
        None => Some((c, after)),
    }
}

/// Returns the string with its backslashes resolved.
fn unescape(alloc: Global, raw: &str) -> Result<String, AllocError>
    ensures { IfOk result (λ s. string_bytes s ≡ plain raw.now) }
{
    if is_plain(raw) {
        return String::from_str(alloc, raw);
    }
    let mut text = String::with_capacity(alloc, raw.len())?;
    let mut rest = raw;
    'characters: while let Some((c, after)) = split_plain(rest) {
        text.push(c)?;
        rest = after;
    }
    Ok(text)
}

/// Returns the pattern that a value encodes, or the position of the error in it.
fn read_pattern(alloc: Global, raw: &str) -> Result<Result<Pattern, usize>, AllocError>
    ensures { IfOk result (λ r. (pattern (chars raw.now) ≡ r)
        × IfErr r (λ at. at ≤ length raw.now)) }
{
    match Pattern::parse(alloc, raw) {
        Ok(pattern) => Ok(Ok(pattern)),
        Err(Refusal::BadPattern(at)) => Ok(Err(at)),
        Err(_) => Err(AllocError),
    }
}

/// Returns the literal that a value encodes, or the position of the error in its pattern.
pub(crate) fn read_literal(
    alloc: Global,
    op: Cmp,
    raw: &str,
) -> Result<Result<Literal, usize>, AllocError>
    ensures ok { IfOk result (λ r. IfOk r
        (λ l. (literal l ≡ literal_of op raw.now) × (bad_pattern op raw.now ≡ None))) }
    ensures err { IfOk result (λ r. IfErr r
        (λ at. (bad_pattern op raw.now ≡ Some at) × (at ≤ length raw.now))) }
{
    match op {
        Cmp::Eq | Cmp::Ne => match read_pattern(alloc, raw)? {
            Ok(pattern) => Ok(Ok(Literal::Pattern(pattern))),
            Err(at) => Ok(Err(at)),
        },
        Cmp::Lt | Cmp::Le | Cmp::Gt | Cmp::Ge => {
            let text = unescape(alloc, raw)?;
            Ok(Ok(Literal::Text(text)))
        }
    }
}

/// Returns the operator of a comparison, or its opposite if it is inside an odd number of `!`.
fn turned_operator(negated: bool, op: Cmp) -> Cmp
    ensures { result ≡ turned_operator negated op }
{
    if negated { op.opposite() } else { op }
}

/// Completes an operand, together with the `!` and the `&&` that were open for it.
fn end_operand(
    alloc: Global,
    level: &mut Level,
    operand: Box<Tree>,
) -> Result<Box<Tree>, AllocError>
    ensures tree { IfOk result (λ t. formula t.value
        ≡ joined (conjunction (level_seen level.old).negated) (level_seen level.old).and_left
        (formula operand.value)) }
    ensures level { level_seen level.new ≡ ended_level (level_seen level.old) }
{
    level.negations = 0;
    level.operand_negated = level.negated;
    match level.and_left.take() {
        None => Ok(operand),
        Some(left) => Ok(Box::new(alloc, Tree::joined(level.negated, left, operand))?),
    }
}

/// Completes a side of `||`.
fn end_side(alloc: Global, level: &mut Level, side: Box<Tree>) -> Result<Box<Tree>, AllocError>
    ensures tree { IfOk result (λ t. formula t.value
        ≡ with_side (formula side.value) (level_seen level.old)) }
    ensures level { level_seen level.new ≡ record (level_seen level.old) { or_left = None } }
{
    match level.or_left.take() {
        None => Ok(side),
        Some(left) => Ok(Box::new(alloc, Tree::joined(!level.negated, left, side))?),
    }
}
