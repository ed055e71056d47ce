// A line as tokens. The loop asks at each place what begins there, and goes on behind it; so the
// tokens are in order, only blanks lie between them, and the first place where nothing begins is
// the one that is answered.
ghost use Rattle.std.specs.Prelude.{◌≡◌, ◌++◌, ◌∷◌, [], ℕ, List, OnOk, IfErr, IfOk, IfSome, MatchOption, MatchResult, All};
ghost use Rattle.syn_term.specs.Tokens.{Spelled, OneSpelling, SpacedWords, Word};
ghost use Rattle.syn_lex.specs.Lexing.{Faulty, IsAccount, IsLongestToken, IsTokens, Lexed, OneAnswer, Refused, WithoutWords, words_of};

use crate::begins::starts;
use crate::lengths::after;
use crate::token::{LexError, Token, What};
use std::alloc::Global;
use syn_term::NoMemory;

fn push_token(tokens: &mut Vec<Token>, token: Token) -> Result<(), LexError>
    ensures ok { OnOk result (tokens.new.items ≡ tokens.old.items ++ token ∷ []) }
    ensures err { IfErr result (λ e. e ≡ LexError.NoMemory) }
{
    match tokens.push(token) {
        Ok(()) => Ok(()),
        Err(_) => Err(LexError::NoMemory),
    }
}

fn scan(alloc: Global, line: &[u8]) -> Result<Vec<Token>, LexError>
    ensures { MatchResult result (λ found. Lexed line.now found.items) (Refused line.now) }
{
    let mut found = Vec::new(alloc);
    let mut at = 0;
    while at < line.len() {
        match starts(after(line, at)) {
            What::Gap => at += 1,
            What::Over => return Ok(found),
            What::Bad(n) => return Err(LexError::At((at + n) as u64)),
            What::Token(kind, n) => {
                push_token(
                    &mut found,
                    Token {
                        kind,
                        from: at as u64,
                        to: (at + n) as u64,
                    },
                )?;
                at += n;
            }
        }
    }
    Ok(found)
}

/// The tokens of a line, in order. Each is the longest at its place that is not cut off in the middle
/// of a word or a number: `?1:nat` is `?1`, `:` and `nat`, since `nat` is no name and `?1:na` is cut off,
/// and a word of more than 64 bytes begins no token. Between the tokens lie spaces, tabs and carriage returns,
/// and behind them at most a comment, which `#` begins. Words that are tokens, written with a space
/// between, are a line of just these tokens. `At(p)` is answered where the byte at `p` is the first that
/// begins no token, blank or comment; then the line is made of no words. A line feed begins nothing, and
/// no comment goes on past it.
pub fn tokens(alloc: Global, line: &[u8]) -> Result<Vec<Token>, LexError>
    ensures answer { MatchResult result (λ found. Lexed line.now found.items) (Refused line.now) }
    ensures grammar { MatchResult result (λ found. IsTokens line.now found.items) (Faulty line.now) }
    ensures account { (rest : List ℕ) → IsAccount rest }
    ensures one { OneAnswer line.now }
    ensures words { IfOk result (λ found. Spelled line.now (words_of line.now found.items)) }
    ensures without { IfErr result (WithoutWords line.now) }
    ensures one_spelling { OneSpelling line.now }
    ensures each { IfOk result (λ found. All (IsLongestToken line.now) found.items) }
    ensures spaced { SpacedWords }
{
    scan(alloc, line)
}

/// The tokens of a line, as `tokens` finds them; None where a byte of it begins nothing, so that the line is
/// made of no words. The one error is want of memory.
pub fn line_tokens(alloc: Global, line: &[u8]) -> Result<Option<Vec<Token>>, NoMemory>
    ensures words { IfOk result (λ o. MatchOption o ((words : List Word) → ¬ (Spelled line.now words)) (λ found. Spelled line.now (words_of line.now found.items))) }
    ensures one_spelling { OneSpelling line.now }
    ensures each { IfOk result (λ o. IfSome o (λ found. All (IsLongestToken line.now) found.items)) }
{
    match tokens(alloc, line) {
        Ok(found) => Ok(Some(found)),
        Err(LexError::At(_)) => Ok(None),
        Err(LexError::NoMemory) => Err(NoMemory),
    }
}
