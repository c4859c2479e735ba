//! Accounts with their balances.
ghost use Rattle.std.specs.Prelude.{◌≡◌, ℕ, ◌+◌, ◌-◌, [], Some, fold, unwrap_or, OnOk, OnErr};
ghost use Rattle.std.specs.Map.{keys_of};
ghost use Rattle.std.specs.Ordering.{nat_cmp};
ghost use Rattle.rpds.specs.Pairs.{put};
ghost use Rattle.example_accounts.specs.Money.{balance_of, changed, moved, total};

use rpds::RedBlackTreeMap;
use rpds::laws::ordered::{find_is_lawful, put_is_lawful, sum_of_put_is_lawful};
use rpds::map::red_black_tree_map::Iter;
use std::alloc::{AllocError, Global};
use std::fmt::{self, Display, Formatter, Write};
use std::marker::Model;

type Balances = RedBlackTreeMap<u32, u64>;

/// Money that goes from an account to another.
#[derive(Clone, Copy)]
pub struct Transfer {
    pub from: u32,
    pub to: u32,
    pub amount: u64,
}

/// Why nothing was done.
#[derive(Clone, Copy)]
pub enum Refused {
    /// There is no such account.
    NoAccount(u32),
    /// There is one already.
    Taken(u32),
    /// The account hasn't so much.
    TooLittle(u32),
    /// The account can't hold so much more.
    TooMuch(u32),
    NoMemory,
}

impl From<AllocError> for Refused {
    fn from(_: AllocError) -> Refused {
        Refused::NoMemory
    }
}

impl Display for Refused {
    fn fmt<W: Write>(&self, f: &mut Formatter<W>) -> fmt::Result {
        match self {
            Refused::NoAccount(account) => write!(f, "there is no account {account}"),
            Refused::Taken(account) => write!(f, "account {account} is there already"),
            Refused::TooLittle(account) => write!(f, "account {account} has too little"),
            Refused::TooMuch(account) => write!(f, "account {account} would have too much"),
            Refused::NoMemory => f.write_str("no memory"),
        }
    }
}

/// The balances of accounts.
#[derive(Drop)]
pub struct Bank {
    balances: Balances,
}

impl Model for Bank {
    ghost use Rattle.std.specs.Prelude.{ℕ, List};

    ghost Value = { List (ℕ × ℕ) };

    ghost view = { λ b. b.balances.entries };
}

// Puts the balance of an account into the map, in the place of the one before.
fn record(balances: &mut Balances, account: u32, balance: u64) -> Result<(), AllocError>
    ensures ok { OnOk result
        (balances.new.entries ≡ put nat_cmp (account, balance) balances.old.entries) }
    ensures sum { OnOk result (total balances.new.entries + unwrap_or (balance_of account balances.old.entries) 0
        ≡ total balances.old.entries + balance) }
    ensures accounts { OnOk result ((before : ℕ) → balance_of account balances.old.entries ≡ Some before →
        keys_of balances.new.entries ≡ keys_of balances.old.entries) }
    ensures err { OnErr result (balances.new ≡ balances.old) }
{
    find_is_lawful::<u32, u64>();
    put_is_lawful::<u32, u64>();
    sum_of_put_is_lawful::<u32, u64>();
    // For its clause: the keys ascend.
    let _size = balances.size();
    balances.insert_mut(account, balance)
}

// Takes an amount off an account.
fn withdraw(balances: &mut Balances, account: u32, amount: u64) -> Result<(), Refused>
    ensures less { OnOk result
        (balances.new.entries ≡ changed (λ balance. balance - amount) account balances.old.entries) }
    ensures money { OnOk result (total balances.new.entries + amount ≡ total balances.old.entries) }
    ensures accounts { OnOk result (keys_of balances.new.entries ≡ keys_of balances.old.entries) }
{
    let balance = balances.get(&account).ok_or(Refused::NoAccount(account))?;
    let less = balance
        .checked_sub(amount)
        .ok_or(Refused::TooLittle(account))?;
    record(balances, account, less)?;
    Ok(())
}

// Adds an amount to an account.
fn deposit(balances: &mut Balances, account: u32, amount: u64) -> Result<(), Refused>
    ensures more { OnOk result
        (balances.new.entries ≡ changed (λ balance. balance + amount) account balances.old.entries) }
    ensures money { OnOk result (total balances.new.entries ≡ total balances.old.entries + amount) }
    ensures accounts { OnOk result (keys_of balances.new.entries ≡ keys_of balances.old.entries) }
{
    let balance = balances.get(&account).ok_or(Refused::NoAccount(account))?;
    let more = balance
        .checked_add(amount)
        .ok_or(Refused::TooMuch(account))?;
    record(balances, account, more)?;
    Ok(())
}

// Moves the money of one transfer. Where it is refused, the map may hold half of it.
fn transfer_money(balances: &mut Balances, transfer: Transfer) -> Result<(), Refused>
    ensures moved { OnOk result (balances.new.entries ≡ moved transfer balances.old.entries) }
    ensures money { OnOk result (total balances.new.entries ≡ total balances.old.entries) }
    ensures accounts { OnOk result (keys_of balances.new.entries ≡ keys_of balances.old.entries) }
{
    let Transfer { from, to, amount } = transfer;
    withdraw(balances, from, amount)?;
    deposit(balances, to, amount)?;
    Ok(())
}

impl Bank {
    /// No account.
    pub fn new(alloc: Global) -> Bank
        ensures { result ≡ [] }
    {
        Bank {
            balances: RedBlackTreeMap::new(alloc),
        }
    }

    /// Opens an account. Where it is refused, nothing changes.
    pub fn open(&mut self, account: u32, balance: u64) -> Result<(), Refused>
        ensures fresh { OnOk result (balance_of account self.old ≡ None) }
        ensures ok { OnOk result (self.new ≡ put nat_cmp (account, balance) self.old) }
        ensures err { OnErr result (self.new ≡ self.old) }
    {
        if self.balances.contains_key(&account) {
            return Err(Refused::Taken(account));
        }
        record(&mut self.balances, account, balance)?;
        Ok(())
    }

    /// Makes all of the transfers, in their order, or none: where one is refused, nothing changes.
    pub fn transact(&mut self, transfers: &[Transfer]) -> Result<(), Refused>
        ensures moved { OnOk result
            (self.new ≡ fold (λ balances t. moved t balances) self.old transfers.now) }
        ensures money { OnOk result (total self.new ≡ total self.old) }
        ensures accounts { OnOk result (keys_of self.new ≡ keys_of self.old) }
        ensures err { OnErr result (self.new ≡ self.old) }
    {
        let mut balances = self.balances.clone()?;
        for transfer in transfers {
            transfer_money(&mut balances, *transfer)?;
        }
        self.balances = balances;
        Ok(())
    }

    /// The accounts by their numbers, each with its balance.
    pub fn balances(&self) -> Iter<'_, u32, u64>
        ensures { result ≡ self.now }
    {
        self.balances.iter()
    }
}
