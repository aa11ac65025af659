//! The reliable link.
ghost use Rattle.arq_link.specs.Kept.{Stands, Stands-prop};
ghost use Rattle.std.specs.Prelude.{◌≤◌, length};

use crate::endpoint::Endpoint;
use crate::telling::Telling;
use da_outside::{DATAGRAM_MAX, Link, LinkEntry, Taken, Trouble};
use std::alloc::Global;

/// A link that keeps the order, made of an inner link that need not: payloads there may be lost, come twice, or overtake each
/// other. Of every sender it hands out each payload a single time, the ones that were given first before the others.
///
/// Each payload goes as a frame with a number, and waits until the peer has acknowledged it. At each hundredth answer in a row
/// that nothing is there, what waits first for each peer is given again. Memory of a call is taken first, and where a call fails
/// what is kept for the peers is as it was. A `give` that failed has given nothing, and what a failed call took from the inner
/// link counts as lost.
///
/// While a peer is away, all that was given to it waits, and memory grows with each `give`. No bound is set.
#[derive(Drop)]
pub struct ArqLink<L: Link> {
    alloc: Global,
    inner: L,
    endpoint: Endpoint,
    telling: Telling,
    ghost reached: { length endpoint.sessions ≤ L.count inner },
    pub ghost stands: { Stands telling endpoint (L.told inner) } by { Stands-prop telling endpoint (L.told inner) },
}

impl<L: Link> ArqLink<L> {
    ghost use Rattle.arq_link.specs.ArqLink.{IsUnbound, inner_of, lent, told_of};
    ghost use Rattle.arq_link.specs.contracts.link.ArqLink.{the_row};
    ghost use Rattle.std.specs.Borrow.{Lends, sem};
    ghost use Rattle.std.specs.Option.{option_map};
    ghost use Rattle.std.specs.Prelude.{◌≡◌, []};

    /// A link over this one that is not bound. It takes no memory. Where the inner link tells something, it tells an empty list.
    pub fn new(alloc: Global, inner: L) -> ArqLink<L>
        ensures inner { inner_of result ≡ inner }
        ensures told { told_of L.told result ≡ option_map (λ _. []) (L.told inner) }
        ensures unbound { IsUnbound result }
    {
        ArqLink {
            alloc,
            inner,
            endpoint: Endpoint::unbound(alloc),
            telling: Telling::Unbound,
        }
    }

    /// Lends the inner link. From now on this link is not bound, until it is bound anew, and tells nothing. It takes no memory.
    pub fn inner(&mut self) -> &mut L
        ensures* lends { sem 𝓛 (Lends (the_row L.row L.Link) L.row self.entry result (λ w. lent self.old w)) }
        ensures is { result.now ≡ inner_of self.old }
    {
        self.telling = Telling::Silent;
        self.endpoint.forget();
        &mut self.inner
    }
}

impl<L: Link> Link for ArqLink<L> {
    ghost use Rattle.arq_link.specs.ArqLink.{HasFailed, IsUnbound, Tells, count_of, endpoint_at, inner_of, me_of, told_of};
    ghost use Rattle.arq_link.specs.Endpoint.{give_turn, new_endpoint, number_limit, peer_at};
    ghost use Rattle.arq_link.specs.Told.{told_by};
    ghost use Rattle.arq_link.specs.Turns.{FailedTake, HasTaken, IsPlayed};
    ghost use Rattle.da_outside.specs.Link.{Carries, Gains, HasRoom, answer_of};
    ghost use Rattle.da_outside.specs.Outside.{HasCause};
    ghost use Rattle.std.specs.Prelude.{◌≡◌, ◌⊎◌, ◌<◌, [], ◌∷◌, IfOk, IsErrOf, OnErr, OnOk};

    ghost told = { λ link. told_by link.telling (L.told link.inner) };

    ghost count = { λ link. length link.endpoint.sessions };

    ghost faults = { λ link. L.faults link.inner };

    ghost carried = { λ link. L.told link.inner };

    fn bind(&mut self, port: u16, me: u16, processes: u16) -> Result<(), Trouble>
        requires port { (1024 ≤ port) × (port ≤ 65000) }
        requires processes { (1 ≤ processes) × (processes ≤ 64) }
        requires me { (1 ≤ me) × (me ≤ processes) }
        ensures bound { OnOk result (count_of self.new ≡ processes) }
        ensures unbound { OnErr result (count_of self.new ≡ count_of self.old) }
        ensures adds { OnOk result (Gains (told_of L.told self.old) (told_of L.told self.new) (LinkEntry.Bound port me processes ∷ [])) }
        ensures same { OnErr result (Gains (told_of L.told self.old) (told_of L.told self.new) []) }
        ensures cause { HasCause (L.faults (inner_of self.old)) (L.faults (inner_of self.new)) (IsErrOf result Trouble.Failed) }
        ensures carries { Carries (L.told (inner_of self.old)) (L.told (inner_of self.new)) []
            ⊎ Carries (L.told (inner_of self.old)) (L.told (inner_of self.new)) (LinkEntry.Bound port me processes ∷ []) }

        // The inner link was bound, and all begins anew; or all stayed.
        ensures begins { OnOk result ((me_of self.new ≡ me) × (endpoint_at self.new ≡ new_endpoint processes)) }
        ensures keeps { OnErr result ((me_of self.new ≡ me_of self.old) × (endpoint_at self.new ≡ endpoint_at self.old)) }
        ensures binds { OnOk result (Gains (L.told (inner_of self.old)) (L.told (inner_of self.new)) (LinkEntry.Bound port me processes ∷ [])) }
        ensures none { OnErr result (Gains (L.told (inner_of self.old)) (L.told (inner_of self.new)) []) }

        // It tells all from its first binding on.
        ensures tells { OnOk result (IsUnbound self.old → Tells self.new) }

        // Where it fails it tells what it told before, and nothing from the next call on.
        ensures fails { OnErr result (HasFailed self.old self.new) }
    {
        let telling = self.telling;
        self.telling = telling.after_failure();
        let endpoint = Endpoint::new(self.alloc, me, processes)?;
        self.inner.bind(port, me, processes)?;
        self.endpoint = endpoint;
        self.telling = telling.after_binding();
        Ok(())
    }

    fn take(&mut self, buf: &mut [u8]) -> Result<Taken, Trouble>
        requires bound { 1 ≤ count_of self.old }
        requires room { DATAGRAM_MAX ≤ length buf.old }
        ensures within { IfOk result (λ taken. HasRoom taken buf.new) }
        ensures adds { IfOk result (λ taken. Gains (told_of L.told self.old) (told_of L.told self.new) (LinkEntry.Answered (answer_of taken buf.new) ∷ [])) }
        ensures same { OnErr result (Gains (told_of L.told self.old) (told_of L.told self.new) []) }
        ensures kept { count_of self.new ≡ count_of self.old }
        ensures cause { HasCause (L.faults (inner_of self.old)) (L.faults (inner_of self.new)) (IsErrOf result Trouble.Failed) }
        ensures carries { Carries (L.told (inner_of self.old)) (L.told (inner_of self.new)) [] }

        // The inner link was asked, and the turn by its answer was played to its end; or a call of the inner link failed in it.
        ensures taken { IfOk result (λ taken. HasTaken (me_of self.old) (endpoint_at self.old) (endpoint_at self.new)
            (answer_of taken buf.new) (L.told (inner_of self.old)) (L.told (inner_of self.new))) }
        ensures failed { OnErr result (FailedTake (me_of self.old) (endpoint_at self.old)
            (endpoint_at self.new) (L.told (inner_of self.old)) (L.told (inner_of self.new))) }
        ensures me { me_of self.new ≡ me_of self.old }

        // Where it tells all, it goes on so.
        ensures tells { OnOk result (Tells self.old → Tells self.new) }

        // Where it fails it tells what it told before, and nothing from the next call on.
        ensures fails { OnErr result (HasFailed self.old self.new) }
    {
        let telling = self.telling;
        self.telling = telling.after_failure();
        let taken = self.endpoint.take(&mut self.inner, buf)?;
        self.telling = telling.after_call();
        Ok(taken)
    }

    fn give(&mut self, to: u16, bytes: &[u8]) -> Result<(), Trouble>
        requires { (1 ≤ to) × (to ≤ count_of self.old) }
        ensures adds { OnOk result (Gains (told_of L.told self.old) (told_of L.told self.new) (LinkEntry.Gave to bytes.now ∷ [])) }
        ensures same { OnErr result (Gains (told_of L.told self.old) (told_of L.told self.new) []) }
        ensures kept { count_of self.new ≡ count_of self.old }
        ensures cause { HasCause (L.faults (inner_of self.old)) (L.faults (inner_of self.new)) (IsErrOf result Trouble.Failed) }
        ensures carries { Carries (L.told (inner_of self.old)) (L.told (inner_of self.new)) [] }

        // The turn was played to its end; or all stayed.
        ensures given { OnOk result (IsPlayed (give_turn (me_of self.old) (endpoint_at self.old) to bytes.now)
            (endpoint_at self.new) (L.told (inner_of self.old)) (L.told (inner_of self.new))) }
        ensures none { OnErr result ((endpoint_at self.new ≡ endpoint_at self.old) × Gains (L.told (inner_of self.old)) (L.told (inner_of self.new)) []) }
        ensures me { me_of self.new ≡ me_of self.old }

        // Where it tells all, it goes on so, unless no number is left for the payload.
        ensures tells { OnOk result (Tells self.old → (peer_at (endpoint_at self.old).peers to).next < number_limit → Tells self.new) }

        // Where it fails it tells what it told before, and nothing from the next call on.
        ensures fails { OnErr result (HasFailed self.old self.new) }
    {
        let telling = self.telling;
        if !self.endpoint.has_number(to) {
            self.telling = Telling::Silent;
            return Ok(());
        }
        self.telling = telling.after_failure();
        self.endpoint.give(&mut self.inner, to, bytes)?;
        self.telling = telling.after_call();
        Ok(())
    }
}
