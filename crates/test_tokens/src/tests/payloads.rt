//! A queue of tokens with payloads, by one thread.
ghost use Rattle.std.specs.Prelude.{◌≡◌, ◌<◌, ◌≤◌, All, IfOk, IfSome, false};
ghost use Rattle.kfifo_live.specs.Pass.{IsPassOf, IsSamePass};

use kfifo_live::{
    CloseFault, Published, Received, ReceivedOrSealed, Token, TokenHandle, TokenQueue,
};
use kfifo_words::{MAX_VERSION, Shape};
use std::alloc::{AllocError, Global};
use std::marker::Model;
use std::test::Fail;

/// A queue with payloads for one thread, its handle, and the tokens that are not in it.
#[derive(Drop)]
struct Parcels {
    queue: TokenQueue<String>,
    handle: TokenHandle<String>,
    spare: Vec<Token<String>>,
}

impl Model for Parcels {
    ghost Value = { Unit {0} };

    ghost view = { λ _. tt };

    ghost invariant = { λ p. IsPassOf p.queue p.handle.pass.pass × (p.queue.opened.bare ≡ false)
        × All (λ t. t.queue ≡ p.queue) p.spare.items };
}

/// What a `give` came to, with what came back.
#[derive(Drop, PartialEq, Eq, Debug)]
enum Sent {
    Done,
    Full(String),
    Busy(String),
    Worn(String),
    NoToken,
}

/// Adds a token of the queue to these.
fn add(queue: &TokenQueue<String>, spare: &mut Vec<Token<String>>, token: Token<String>)
    requires tokens { All (λ t. t.queue ≡ queue.now) spare.old.items }
    requires token { token.queue ≡ queue.now }
    ensures { All (λ t. t.queue ≡ queue.now) spare.new.items }
{
    let _ = spare.push(token);
}

/// Takes a parcel and its token.
fn take(
    queue: &TokenQueue<String>,
    handle: &mut TokenHandle<String>,
) -> Option<(String, Token<String>)>
    requires of { IsPassOf queue.now handle.old.pass.pass }
    requires payloads { queue.now.opened.bare ≡ false }
    ensures same { IsSamePass handle.old.pass.pass handle.new.pass.pass }
    ensures of { IfSome result (λ r. r.1.queue ≡ queue.now) }
{
    match handle.receive(queue) {
        Received::Got(parcel, token) => Some((parcel, token)),
        Received::Empty | Received::Busy | Received::Worn => None,
    }
}

/// Why no parcel came.
#[derive(Clone, Copy, PartialEq, Eq, Debug)]
enum NoParcel {
    Empty,
    Sealed,
    Refused,
}

/// Takes a parcel and its token, or seals the queue.
fn take_or_seal(
    queue: &TokenQueue<String>,
    handle: &mut TokenHandle<String>,
) -> Result<(String, Token<String>), NoParcel>
    requires of { IsPassOf queue.now handle.old.pass.pass }
    requires payloads { queue.now.opened.bare ≡ false }
    ensures same { IsSamePass handle.old.pass.pass handle.new.pass.pass }
    ensures of { IfOk result (λ r. r.1.queue ≡ queue.now) }
{
    match handle.receive_or_seal(queue) {
        ReceivedOrSealed::Got(parcel, token) => Ok((parcel, token)),
        ReceivedOrSealed::Empty => Err(NoParcel::Empty),
        ReceivedOrSealed::Sealed => Err(NoParcel::Sealed),
        ReceivedOrSealed::Busy | ReceivedOrSealed::Worn => Err(NoParcel::Refused),
    }
}

impl Parcels {
    fn open(alloc: Global, shape: Shape, tokens: u32) -> Result<Parcels, AllocError>
        requires { (0 < tokens) × (tokens ≤ 1000) }
    {
        let (queue, mut passes, spare) = TokenQueue::open_with_payloads(alloc, shape, 1, tokens)?;
        let Some(pass) = passes.pop() else {
            unreachable!()
        };
        let handle = TokenHandle::new(&queue, pass);
        Ok(Parcels {
            queue,
            handle,
            spare,
        })
    }

    fn spare(&self) -> usize {
        self.spare.len()
    }

    fn send(&mut self, parcel: String) -> Sent {
        let Some(token) = self.spare.pop() else {
            return Sent::NoToken;
        };
        let (sent, back) = match self.handle.give(&self.queue, token, parcel) {
            Published::Done => return Sent::Done,
            Published::Full(parcel, back) => (Sent::Full(parcel), back),
            Published::Busy(parcel, back) => (Sent::Busy(parcel), back),
            Published::Worn(parcel, back) => (Sent::Worn(parcel), back),
        };
        add(&self.queue, &mut self.spare, back);
        sent
    }

    /// The next parcel, and the number of its token.
    fn fetch(&mut self) -> Option<(String, u32)> {
        let (parcel, token) = take(&self.queue, &mut self.handle)?;
        let number = token.number();
        add(&self.queue, &mut self.spare, token);
        Some((parcel, number))
    }

    /// The next parcel, or why none came.
    fn fetch_or_seal(&mut self) -> Result<String, NoParcel> {
        let (parcel, token) = take_or_seal(&self.queue, &mut self.handle)?;
        add(&self.queue, &mut self.spare, token);
        Ok(parcel)
    }

    fn close(self, alloc: Global) -> Result<Vec<String>, CloseFault> {
        let Parcels { queue, handle, .. } = self;
        queue.close_with(alloc, handle.into_pass(), Vec::new(alloc))
    }
}

/// Each parcel comes out with the token that it went in with, and in the order of a plain queue.
#[test]
fn come_out_with_their_tokens(rt: HostRuntime) -> Result<(), Fail> {
    let alloc = rt.alloc();
    let mut parcels = Parcels::open(alloc, Shape::new(1, 8, MAX_VERSION)?, 3)?;
    for turn in 0..50_u32 {
        for parcel in 0..3_u32 {
            let sent = parcels.send(format!(in alloc; "{turn}.{parcel}")?);
            assert_eq!(rt; sent, Sent::Done);
        }
        assert_eq!(rt; parcels.spare(), 0);
        assert_eq!(rt; parcels.send(format!(in alloc; "one more")?), Sent::NoToken);
        for parcel in 0..3_u32 {
            let Some((text, _)) = parcels.fetch() else {
                return Err(Fail::new("a parcel was lost"));
            };
            assert_eq!(rt; text, format!(in alloc; "{turn}.{parcel}")?);
        }
        assert!(rt; parcels.fetch().is_none());
        assert_eq!(rt; parcels.spare(), 3);
    }
    Ok(())
}

/// A full ring hands the parcel back, with its token; a close returns the parcels that are left, in their order.
#[test]
fn come_back_and_are_left(rt: HostRuntime) -> Result<(), Fail> {
    let alloc = rt.alloc();
    let mut parcels = Parcels::open(alloc, Shape::new(1, 2, MAX_VERSION)?, 4)?;
    assert_eq!(rt; parcels.send(format!(in alloc; "first")?), Sent::Done);
    assert_eq!(rt; parcels.send(format!(in alloc; "second")?), Sent::Done);
    let third = format!(in alloc; "third")?;
    assert_eq!(rt;
        parcels.send(third),
        Sent::Full(format!(in alloc; "third")?)
    );
    assert_eq!(rt; parcels.spare(), 2);
    assert_eq!(rt; parcels.fetch(), Some((format!(in alloc; "first")?, 4)));
    let left = parcels.close(alloc)?;
    assert_eq!(rt; left.as_slice(), [format!(in alloc; "second")?].as_slice());
    Ok(())
}

/// The last parcel comes out before the queue is sealed, and one that is sent later comes back.
#[test]
fn come_out_before_a_seal(rt: HostRuntime) -> Result<(), Fail> {
    let alloc = rt.alloc();
    let mut parcels = Parcels::open(alloc, Shape::new(1, 4, MAX_VERSION)?, 2)?;
    assert_eq!(rt; parcels.send(format!(in alloc; "last")?), Sent::Done);
    assert_eq!(rt; parcels.fetch_or_seal(), Ok(format!(in alloc; "last")?));
    assert_eq!(rt; parcels.fetch_or_seal(), Err(NoParcel::Empty));
    assert_eq!(rt; parcels.fetch_or_seal(), Err(NoParcel::Sealed));
    assert_eq!(rt; parcels.spare(), 2);
    let late = format!(in alloc; "late")?;
    assert_eq!(rt; parcels.send(late), Sent::Worn(format!(in alloc; "late")?));
    assert_eq!(rt; parcels.spare(), 2);
    assert_eq!(rt; parcels.fetch_or_seal(), Err(NoParcel::Sealed));
    assert_eq!(rt; parcels.close(alloc)?.len(), 0);
    Ok(())
}
