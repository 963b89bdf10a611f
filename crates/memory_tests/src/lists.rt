//! A list that only proofs see.
ghost use Rattle.std.specs.Prelude.{◌≡◌, [], ◌∷◌};

use ghost_list::GhostList;

/// The list as another thread gets it.
fn sent<T: Send + Sync>(value: T) -> T
    ensures { result ≡ value }
{
    value
}

fn two_items() -> GhostList<u64>
    ensures { result.items ≡ 7 ∷ 8 ∷ [] }
{
    let mut list = sent(GhostList::new());
    list.push(&7);
    list.push(&8);
    list
}

#[test]
fn keeps_what_was_put_in(rt: HostRuntime) {
    let list = two_items();
    assert_eq!(rt; size_of_val(&list), 0);
}
