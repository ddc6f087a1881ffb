//! A queue of tokens for one thread, with its handle and its tokens. No test says more of a call: proofs are faster so.
ghost use Rattle.std.specs.Prelude.{◌≡◌, ◌<◌, ◌≤◌, All, true};
ghost use Rattle.kfifo_live.specs.Pass.{IsPassOf, IsSamePass};
ghost use Rattle.kfifo_live.specs.Payloads.{TokenView};

use kfifo_live::{CloseFault, Put, Taken, TakenOrSealed, Token, TokenHandle, TokenQueue};
use kfifo_words::Shape;
use std::alloc::{AllocError, Global};
use std::marker::Model;

/// What a `put` came to.
#[derive(Clone, Copy, PartialEq, Eq, Debug)]
pub enum Answer {
    Done,
    Full,
    Busy,
    Worn,
    /// There was no token to put.
    NoToken,
}

/// A queue of tokens for one thread, its handle, and the tokens that are not in it.
#[derive(Drop)]
pub struct Round {
    queue: TokenQueue<()>,
    handle: TokenHandle<()>,
    spare: Vec<Token<()>>,
}

impl Model for Round {
    ghost Value = { Unit {0} };

    ghost view = { λ _. tt };

    ghost invariant = { λ r. IsPassOf r.queue r.handle.pass.pass × (r.queue.opened.bare ≡ true)
        × All (λ t. t.queue ≡ r.queue) r.spare.items };
}

/// Adds a token of the queue to these.
fn add(queue: &TokenQueue<()>, spare: &mut Vec<Token<()>>, token: Token<()>)
    requires tokens { All (λ t. t.queue ≡ queue.now) spare.old.items }
    requires token { token.queue ≡ queue.now }
    ensures { All (λ t. t.queue ≡ queue.now) spare.new.items }
{
    let _ = spare.push(token);
}

/// Takes a token of the queue.
fn take_token(queue: &TokenQueue<()>, handle: &mut TokenHandle<()>) -> Taken<Token<()>>
    requires of { IsPassOf queue.now handle.old.pass.pass }
    requires bare { queue.now.opened.bare ≡ true }
    ensures same { IsSamePass handle.old.pass.pass handle.new.pass.pass }
    ensures of { (token : TokenView) → result ≡ Taken.Got token → token.queue ≡ queue.now }
{
    handle.take(queue)
}

/// Takes a token of the queue, or seals it.
fn take_token_or_seal(
    queue: &TokenQueue<()>,
    handle: &mut TokenHandle<()>,
) -> TakenOrSealed<Token<()>>
    requires of { IsPassOf queue.now handle.old.pass.pass }
    requires bare { queue.now.opened.bare ≡ true }
    ensures same { IsSamePass handle.old.pass.pass handle.new.pass.pass }
    ensures of { (token : TokenView) → result ≡ TakenOrSealed.Got token → token.queue ≡ queue.now }
{
    let taken = handle.take_or_seal(queue);
    taken
}

impl Round {
    /// A queue with so many tokens, all of them outside.
    pub fn open(alloc: Global, shape: Shape, tokens: u32) -> Result<Round, AllocError>
        requires { (0 < tokens) × (tokens ≤ 1000) }
    {
        let (queue, mut passes, spare) = TokenQueue::open(alloc, shape, 1, tokens)?;
        let Some(pass) = passes.pop() else {
            unreachable!()
        };
        let handle = TokenHandle::new(&queue, pass);
        Ok(Round {
            queue,
            handle,
            spare,
        })
    }

    /// The numbers of the tokens outside, in the order in which they came out.
    pub fn spare(&self, alloc: Global) -> Result<Vec<u32>, AllocError> {
        let mut numbers = Vec::with_capacity(alloc, self.spare.len())?;
        for token in self.spare.as_slice() {
            numbers.push(token.number())?;
        }
        Ok(numbers)
    }

    /// How many versions are left.
    pub fn versions_left(&self) -> u64 {
        self.queue.versions_left()
    }

    /// How many tokens the queue has.
    pub fn len(&self) -> usize {
        self.queue.len()
    }

    /// Puts the token that came out last. A refusal hands it back.
    pub fn put(&mut self) -> Answer {
        let Some(token) = self.spare.pop() else {
            return Answer::NoToken;
        };
        let (answer, back) = match self.handle.put(&self.queue, token) {
            Put::Done => return Answer::Done,
            Put::Full(back) => (Answer::Full, back),
            Put::Busy(back) => (Answer::Busy, back),
            Put::Worn(back) => (Answer::Worn, back),
        };
        add(&self.queue, &mut self.spare, back);
        answer
    }

    /// Takes a token, and returns its number.
    pub fn take(&mut self) -> Taken<u32> {
        match take_token(&self.queue, &mut self.handle) {
            Taken::Got(token) => {
                let number = token.number();
                add(&self.queue, &mut self.spare, token);
                Taken::Got(number)
            }
            Taken::Empty => Taken::Empty,
            Taken::Busy => Taken::Busy,
            Taken::Worn => Taken::Worn,
        }
    }

    /// Takes a token, and returns its number, or seals the queue.
    pub fn take_or_seal(&mut self) -> TakenOrSealed<u32> {
        match take_token_or_seal(&self.queue, &mut self.handle) {
            TakenOrSealed::Got(token) => {
                let number = token.number();
                add(&self.queue, &mut self.spare, token);
                TakenOrSealed::Got(number)
            }
            TakenOrSealed::Empty => TakenOrSealed::Empty,
            TakenOrSealed::Sealed => TakenOrSealed::Sealed,
            TakenOrSealed::Busy => TakenOrSealed::Busy,
            TakenOrSealed::Worn => TakenOrSealed::Worn,
        }
    }

    /// Closes the queue, and returns the numbers of the tokens in it.
    pub fn close(self, alloc: Global) -> Result<Vec<u32>, CloseFault> {
        let Round { queue, handle, .. } = self;
        let Ok(passes) = vec![in alloc; handle.into_pass()] else {
            return Err(CloseFault::Memory);
        };
        queue.close(alloc, passes)
    }
}
