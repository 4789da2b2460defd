ghost use Rattle.std.specs.Prelude.{◌≡◌, [], map, fold, IfOk, OnOk};
ghost use Rattle.netlist_json.specs.Flats.{keyed, merged, put_entry};
ghost use Rattle.netlist_json.specs.Keys.{entry_of};

use coco_base::{FlatCell, FlatNet, List, NoMemory};
use std::alloc::Global;
use std::collections::BTreeMap;

/// What has a name.
pub trait Named {
    ghost use Rattle.std.specs.Prelude.{ℕ, List};

    ghost name_of: { Self → List ℕ };

    fn name(&self) -> &str
        ensures { result.now ≡ name_of self.now };
}

impl Named for FlatCell {
    ghost name_of = { λ cell. cell.name };

    fn name(&self) -> &str
        ensures { result.now ≡ self.now.name }
    {
        self.name.as_str()
    }
}

impl Named for FlatNet {
    ghost name_of = { λ net. net.name };

    fn name(&self) -> &str
        ensures { result.now ≡ self.now.name }
    {
        self.name.as_str()
    }
}

fn add<T: Named + Drop>(
    entries: &mut BTreeMap<(String, u8), T>,
    alloc: Global,
    items: Vec<T>,
    made: u8,
) -> Result<(), NoMemory>
    ensures { OnOk result (map entry_of entries.new.entries
        ≡ fold put_entry (map entry_of entries.old.entries) (keyed T.name_of made items.items)) }
{
    'items: for item in items {
        let name = item.name().to_string(alloc)?;
        entries.insert((name, made), item)?;
    }
    Ok(())
}

fn values<T: Drop>(alloc: Global, entries: BTreeMap<(String, u8), T>) -> Result<Vec<T>, NoMemory>
    ensures { IfOk result (λ v. v.items ≡ map (λ e. e.1) entries.entries) }
{
    Ok(entries.into_values().collect(alloc)?)
}

/// Items of the file and made ones in order of names; of equal names the one of the file comes first.
pub fn merged<T: Named + Drop>(
    alloc: Global,
    file: Vec<T>,
    made: Vec<T>,
) -> Result<List<T>, NoMemory>
    ensures { IfOk result (λ l. l ≡ merged T.name_of file.items made.items) }
{
    let mut entries = BTreeMap::new(alloc);
    add(&mut entries, alloc, file, 0)?;
    add(&mut entries, alloc, made, 1)?;
    let values = values(alloc, entries)?;
    Ok(List::from_vec(values))
}
