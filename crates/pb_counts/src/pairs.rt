//! Pairs of a user and a backing, ascending by backing and then by user, each once.
ghost use Rattle.std.specs.Prelude.{◌≡◌, ℕ, ◌<◌, ◌≤◌, true, false, IfOk, IfErr, if◌then◌else◌, vec_len, vec_capacity, nat_eq, length, slice_index_or};
ghost use Rattle.std.specs.List.Sorted.{IsPartitionPoint};
ghost use Rattle.pb_counts.specs.declared.user.User.{User as OneUser};
ghost use Rattle.pb_counts.specs.Ascending.{Ascends, StandsAt, FitsAt};
ghost use Rattle.pb_counts.specs.Pairs.{is_before, is_pair, is_user, uses_in, used_in, kind_of, number_of};

use super::User;

fn kind(user: User) -> u8
    ensures { result ≡ kind_of user }
{
    match user {
        User::Version => 0,
        User::Pin(_) => 1,
        User::Handle(_) => 2,
        User::Job(_) => 3,
    }
}

fn number(user: User) -> u64
    ensures { result ≡ number_of user }
{
    match user {
        User::Version => 0,
        User::Pin(number) => number,
        User::Handle(number) => number,
        User::Job(number) => number,
    }
}

fn is_before(first: &(User, u64), second: &(User, u64)) -> bool
    ensures { result ≡ is_before first.now second.now }
{
    let (kind_1, kind_2) = (kind(first.0), kind(second.0));
    let (number_1, number_2) = (number(first.0), number(second.0));
    first.1 < second.1
        || (first.1 == second.1 && (kind_1 < kind_2 || (kind_1 == kind_2 && number_1 < number_2)))
}

fn place(pairs: &[(User, u64)], pair: &(User, u64)) -> usize
    requires { Ascends is_before pairs.now }
    ensures within { result ≤ length pairs.now }
    ensures parts { IsPartitionPoint (λ y. is_before y pair.now ≡ true) (λ y. is_before y pair.now ≡ false) pairs.now result }
{
    pairs.partition_point(|it| is_before(it, pair))
}

/// Where the pair stands, or the place at which it may come.
fn find(pairs: &[(User, u64)], pair: &(User, u64)) -> Result<usize, usize>
    requires { Ascends is_before pairs.now }
    ensures stands { IfOk result (StandsAt pairs.now pair.now) }
    ensures fits { IfErr result (FitsAt is_before pairs.now pair.now) }
{
    let at = place(pairs, pair);
    if at < pairs.len() && !is_before(pair, &pairs[at]) {
        return Ok(at);
    }
    Err(at)
}

/// Puts the pair in its place where it doesn't stand yet. It takes no memory.
pub(crate) fn add(pairs: &mut Vec<(User, u64)>, pair: (User, u64))
    requires ascends { Ascends is_before pairs.old.items }
    requires room { vec_len pairs.old < vec_capacity pairs.old }
    ensures ascends { Ascends is_before pairs.new.items }
    ensures uses { (user : OneUser) (backing : ℕ) → uses_in pairs.new.items user backing ≡ (if is_pair (user, backing) pair then true else uses_in pairs.old.items user backing) }
    ensures used { (backing : ℕ) → used_in pairs.new.items backing ≡ (if nat_eq pair.1 backing then true else used_in pairs.old.items backing) }
    ensures stands { uses_in pairs.old.items pair.0 pair.1 ≡ true → pairs.new.items ≡ pairs.old.items }
{
    if let Err(at) = find(pairs.as_slice(), &pair) {
        pairs.insert(at, pair).unwrap();
    }
}

/// Takes the pair away where it stands.
pub(crate) fn remove(pairs: &mut Vec<(User, u64)>, pair: (User, u64))
    requires ascends { Ascends is_before pairs.old.items }
    ensures ascends { Ascends is_before pairs.new.items }
    ensures uses { (user : OneUser) (backing : ℕ) → uses_in pairs.new.items user backing ≡ (if is_pair (user, backing) pair then false else uses_in pairs.old.items user backing) }
    ensures used { (backing : ℕ) → used_in pairs.new.items backing ≡ true → used_in pairs.old.items backing ≡ true }
{
    match find(pairs.as_slice(), &pair) {
        Ok(at) => {
            pairs.remove(at);
        }
        Err(_) => (),
    }
}

/// The pairs from the first on that isn't of a backing below this one, in one pass over those in front.
pub(crate) fn from_backing(pairs: &[(User, u64)], backing: u64) -> &[(User, u64)]
    requires { Ascends is_before pairs.now }
    ensures ascends { Ascends is_before result.now }
    ensures used { (n : ℕ) → backing ≤ n → used_in result.now n ≡ used_in pairs.now n }
    ensures first { (d : OneUser × ℕ) → 0 < length result.now → backing ≤ (slice_index_or result.now 0 d).1 }
{
    let mut at = 0;
    while at < pairs.len() && pairs[at].1 < backing {
        at += 1;
    }
    &pairs[at..]
}

/// Whether the first pair is of this backing.
pub(crate) fn begin_with(pairs: &[(User, u64)], backing: u64) -> bool
    requires ascends { Ascends is_before pairs.now }
    requires first { (d : OneUser × ℕ) → 0 < length pairs.now → backing ≤ (slice_index_or pairs.now 0 d).1 }
    ensures { result ≡ used_in pairs.now backing }
{
    !pairs.is_empty() && pairs[0].1 == backing
}
