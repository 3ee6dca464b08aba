//! Laws about shards, each the contract of a function with nothing to do.
//! Cited by no other file of crates/.

ghost use Rattle.std.specs.Prelude.{◌≡◌, ◌≢◌, ◌≤◌, ◌<◌, ℕ, List, length, Some, None, Ok};
ghost use Rattle.kt_tuple.specs.Space.{SpaceStep};
ghost use Rattle.kt_shard.specs.declared.request.Request.{Request};
ghost use Rattle.kt_shard.specs.declared.session.Session.{Session};
ghost use Rattle.kt_shard.specs.Limits.{sessions};
ghost use Rattle.kt_shard.specs.Session.{empty_session};
ghost use Rattle.kt_shard.specs.Table.{at, put};
ghost use Rattle.kt_shard.specs.Shard.{Shard, session_of};
ghost use Rattle.kt_shard.specs.Arrival.{Waits, Again, Ignored, arrival, heard};
ghost use Rattle.kt_shard.specs.Service.{Service, IsServed, cached_of, left_by, service, served};

/// A service is a step of the sequential space on the shard's own tuples, with what the worker waited with.
pub fn services_are_steps_of_the_space()
    ensures waited { (y : Shard) (worker place : ℕ) (s : Service)
        → service y worker place ≡ Ok s → (session_of y worker).waiting ≡ Some s.request }
    ensures step { (y : Shard) (worker place : ℕ) (s : Service)
        → service y worker place ≡ Ok s → SpaceStep y.bag s.request.op s.answer (left_by y.bag s.request.op s.place) }
    ensures served { (y : Shard) (worker place : ℕ) (s : Service)
        → service y worker place ≡ Ok s → IsServed y worker (served y worker s) }
{}

/// What was served is kept, and answered so where it is asked again; neither it nor one with a smaller number
/// waits again. What waits is ignored where it is asked again.
pub fn a_served_request_is_answered_again()
    ensures cached { (y : Shard) (worker : ℕ) (s : Service)
        → session_of (served y worker s) worker ≡ record { waiting = None; cached = Some (cached_of s) } }
    ensures again { (y : Shard) (worker : ℕ) (s : Service)
        → arrival (served y worker s) worker s.request ≡ Again s.answer }
    ensures same { (y : Shard) (worker : ℕ) (s : Service)
        → heard (served y worker s) worker s.request ≡ served y worker s }
    ensures never_waits { (y : Shard) (worker : ℕ) (s : Service) (request : Request)
        → request.number ≤ s.request.number → arrival (served y worker s) worker request ≢ Waits }
    ensures waits_once { (y : Shard) (worker : ℕ) (request : Request)
        → arrival y worker request ≡ Waits → arrival (heard y worker request) worker request ≡ Ignored }
{}

/// What is heard of one worker, and what is served to it, leaves the sessions of the others.
pub fn other_sessions_stay()
    ensures heard { (y : Shard) (worker v : ℕ) (request : Request)
        → v ≢ worker → session_of (heard y worker request) v ≡ session_of y v }
    ensures served { (y : Shard) (worker v : ℕ) (s : Service)
        → v ≢ worker → session_of (served y worker s) v ≡ session_of y v }
    ensures tuples { (y : Shard) (worker : ℕ) (request : Request) → (heard y worker request).bag ≡ y.bag }
{}

/// An entry that was put is read where it was put, and elsewhere what stood there.
pub fn a_table_reads_what_was_put<A>()
    ensures same { (d : A) (table : List A) (k : ℕ) (y : A) → at d (put d table k y) k ≡ y }
    ensures others { (d : A) (table : List A) (j k : ℕ) (y : A) → k ≢ j → at d (put d table j y) k ≡ at d table k }
{}

/// A shard is its tuples and its sessions: what is made of the same tuples and of sessions that read the same is it.
pub fn a_shard_is_its_parts()
    ensures { (y : Shard) (table : List Session) → length y.sessions ≡ sessions → length table ≡ sessions
        → ((k : ℕ) → k < sessions → at empty_session table k ≡ session_of y k)
        → record { bag = y.bag; sessions = table } ≡ y }
{}
