// What is lent to an exchange at a call: the places of its tables, and of the entry list.
use market::account::Account;
use market::purchase::Purchase;
use market::sale::Sale;
use settlement::entry::Entry;

#[derive(Drop)]
pub struct Lent<'a> {
    pub sales_one: &'a mut [Sale],
    pub purchases_one: &'a mut [Purchase],
    pub sales_two: &'a mut [Sale],
    pub purchases_two: &'a mut [Purchase],
    pub accounts: &'a mut [Account],
    pub entries: &'a mut [Entry],
}
