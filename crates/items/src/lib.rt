// The items of a call script (docs/CALLS.md), each by its name and how many numbers stand behind it.
#![tactic(auto)]

mod names;

ghost use Rattle.std.specs.Prelude.{◌≡◌};
ghost use Rattle.items.specs.Tables.{item_of};

// What a line asks for.
#[derive(Clone, Copy, Debug, PartialEq, Eq)]
pub enum Item {
    Words,
    Check,
    Dump,
    Clear,
    Middle,
    Level,
    LinkMake,
    LinkRaise,
    LinkLower,
    New,
    Poke,
    Read,
    RemoveKey,
    RemoveAt,
    Truncate,
    Append,
    Setup,
    Search,
    Insert,
    SplitAt,
    SplitKey,
}

// The item of a name with so many numbers; `words` takes any but none.
#[tactic(auto, unfolding(crate::specs::Tables::item_of))]
pub fn item_of(name: u64, count: usize) -> Option<Item>
    ensures { result ≡ item_of name count }
{
    match (name, count) {
        (names::WORDS, 0) => None,
        (names::WORDS, _) => Some(Item::Words),
        (names::CHECK, 0) => Some(Item::Check),
        (names::DUMP, 0) => Some(Item::Dump),
        (names::CLEAR, 1) => Some(Item::Clear),
        (names::MIDDLE, 1) => Some(Item::Middle),
        (names::LEVEL, 1) => Some(Item::Level),
        (names::LINKMAKE, 1) => Some(Item::LinkMake),
        (names::LINKRAISE, 1) => Some(Item::LinkRaise),
        (names::LINKLOWER, 1) => Some(Item::LinkLower),
        (names::NEW, 2) => Some(Item::New),
        (names::POKE, 2) => Some(Item::Poke),
        (names::READ, 2) => Some(Item::Read),
        (names::REMOVEKEY, 2) => Some(Item::RemoveKey),
        (names::REMOVEAT, 2) => Some(Item::RemoveAt),
        (names::TRUNCATE, 2) => Some(Item::Truncate),
        (names::APPEND, 2) => Some(Item::Append),
        (names::SETUP, 3) => Some(Item::Setup),
        (names::SEARCH, 3) => Some(Item::Search),
        (names::INSERT, 3) => Some(Item::Insert),
        (names::SPLITAT, 3) => Some(Item::SplitAt),
        (names::SPLITKEY, 3) => Some(Item::SplitKey),
        _ => None,
    }
}
