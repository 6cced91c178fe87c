// One house at work: its memory, and the acts of a command, one after another.
ghost use Rattle.std.specs.Prelude.{◌≡◌, IfOk, vec_len};
ghost use Rattle.model.specs.Run.{Engine, on, said};
ghost use Rattle.house.specs.Machine.{own};
ghost use Rattle.house.specs.Told.{event_meant};
ghost use Rattle.host.specs.Goes.{means, Goes, ToldBy, After, Ends};

use super::disk::find;
use super::{Answer, Disk, Fault, PAGE_LEN, Rows, World, answer};
use house::{Event, Identity, MEMORY_LEN, OUT_LEN, Told};
use std::alloc::{AllocError, Global};

// The memory, and the row that a step lends for pages and rows: vectors, since a boxed array is made on the stack first, and the memory has 2 MiB.
#[derive(Drop)]
pub struct Machine {
    memory: Vec<u64>,
    row: Vec<u8>,
    ghost sized: { (vec_len memory ≡ 262144) × (vec_len row ≡ 131072) },
}

impl Machine {
    // A house without power: its memory is all 0.
    pub fn new(heap: Global) -> Result<Machine, AllocError>
        ensures { IfOk result (λ m. m.memory.items ≡ own.start) }
    {
        let memory = vec![in heap; 0; MEMORY_LEN]?;
        let row = vec![in heap; 0; OUT_LEN]?;
        Ok(Machine { memory, row })
    }

    // Takes over the memory of another house.
    pub fn take_memory(&mut self, other: &Machine)
        ensures { self.new.memory.items ≡ other.now.memory.items }
    {
        self.memory.copy_from_slice(other.memory.as_slice());
    }

    // Tells the house of an event.
    fn tell(&mut self, event: Event<'_>) -> Told
        ensures { ToldBy self.old.memory.items self.old.row.items (event_meant event.entry) result self.new.memory.items self.new.row.items }
    {
        house::tell(self.memory.as_mut_slice(), event, self.row.as_mut_slice())
    }

    // Power comes to a house that has none, and it is told which house it is: its first act.
    pub fn wake(&mut self, identity: Identity) -> Told
        ensures { ToldBy own.start self.old.row.items (on identity.house identity.houses identity.pages) result self.new.memory.items self.new.row.items }
    {
        self.memory.fill(0);
        self.tell(Event::Power(identity))
    }

    // Says a command to the house: its first act.
    pub fn say(&mut self, text: &[u8]) -> Told
        ensures { ToldBy self.old.memory.items self.old.row.items (said text.now) result self.new.memory.items self.new.row.items }
    {
        self.tell(Event::Said(text))
    }

    // Does one act, and tells the house what came of it: the next act. After the last there is none, and it stays.
    pub fn act<D: Disk, R: Rows>(
        &mut self,
        told: Told,
        world: &mut World<D, R>,
    ) -> Result<Told, Fault>
        ensures after { IfOk result (λ t. After (means D.gave D.took D.kept R.showed) told self.old.memory.items self.old.row.items world.old.disk world.old.rows t self.new.memory.items self.new.row.items world.new.disk world.new.rows) }
        ensures size { D.size world.new.disk ≡ D.size world.old.disk }
    {
        self.act_on(told, &mut world.disk, &mut world.rows)
    }

    // Goes on from an act to the end of the command.
    pub fn finish<D: Disk, R: Rows>(
        &mut self,
        first: Told,
        world: &mut World<D, R>,
    ) -> Result<Answer, Fault>
        ensures ends { IfOk result (λ a. Ends (means D.gave D.took D.kept R.showed) first self.old.memory.items self.old.row.items world.old.disk world.old.rows a self.new.memory.items world.new.disk world.new.rows) }
        ensures size { D.size world.new.disk ≡ D.size world.old.disk }
    {
        self.finish_on(first, &mut world.disk, &mut world.rows)
    }

    // Power comes to a house that has none: its number and how many houses there are; the pages are the disk's own number.
    pub fn power<D: Disk, R: Rows>(
        &mut self,
        house: u64,
        houses: u64,
        world: &mut World<D, R>,
    ) -> Result<Answer, Fault>
        ensures goes { IfOk result (λ a. Goes (means D.gave D.took D.kept R.showed) own.start world.old.disk world.old.rows (on house houses (D.size world.old.disk)) a self.new.memory.items world.new.disk world.new.rows) }
        ensures size { D.size world.new.disk ≡ D.size world.old.disk }
    {
        self.power_on(house, houses, &mut world.disk, &mut world.rows)
    }

    // Says a command to the house, and does what it asks for until the command ends.
    pub fn command<D: Disk, R: Rows>(
        &mut self,
        text: &[u8],
        world: &mut World<D, R>,
    ) -> Result<Answer, Fault>
        ensures goes { IfOk result (λ a. Goes (means D.gave D.took D.kept R.showed) self.old.memory.items world.old.disk world.old.rows (said text.now) a self.new.memory.items world.new.disk world.new.rows) }
        ensures size { D.size world.new.disk ≡ D.size world.old.disk }
    {
        self.command_on(text, &mut world.disk, &mut world.rows)
    }

    // `power` for whoever has disk and rows only lent: no clause tells what becomes of a reference that is put into a `World`, and these tell it.
    pub fn power_on<D: Disk, R: Rows>(
        &mut self,
        house: u64,
        houses: u64,
        disk: &mut D,
        rows: &mut R,
    ) -> Result<Answer, Fault>
        ensures goes { IfOk result (λ a. Goes (means D.gave D.took D.kept R.showed) own.start disk.old rows.old (on house houses (D.size disk.old)) a self.new.memory.items disk.new rows.new) }
        ensures size { D.size disk.new ≡ D.size disk.old }
    {
        let identity = Identity {
            house,
            houses,
            pages: disk.pages(),
        };
        let first = self.wake(identity);
        self.finish_on(first, disk, rows)
    }

    // `command` for whoever has disk and rows only lent.
    pub fn command_on<D: Disk, R: Rows>(
        &mut self,
        text: &[u8],
        disk: &mut D,
        rows: &mut R,
    ) -> Result<Answer, Fault>
        ensures goes { IfOk result (λ a. Goes (means D.gave D.took D.kept R.showed) self.old.memory.items disk.old rows.old (said text.now) a self.new.memory.items disk.new rows.new) }
        ensures size { D.size disk.new ≡ D.size disk.old }
    {
        let first = self.say(text);
        self.finish_on(first, disk, rows)
    }

    // Does one act, on a disk and a place for rows that are lent.
    // The disk keeps its size even where this fails: no type can say so of a disk that is lent, so each function that does acts says it.
    fn act_on<D: Disk, R: Rows>(
        &mut self,
        told: Told,
        disk: &mut D,
        rows: &mut R,
    ) -> Result<Told, Fault>
        ensures after { IfOk result (λ t. After (means D.gave D.took D.kept R.showed) told self.old.memory.items self.old.row.items disk.old rows.old t self.new.memory.items self.new.row.items disk.new rows.new) }
        ensures size { D.size disk.new ≡ D.size disk.old }
    {
        match told {
            Told::Read(page) => {
                find(disk, page)?;
                let mut bytes = [0; PAGE_LEN];
                disk.read_page(page, &mut bytes)?;
                Ok(self.tell(Event::Page(&bytes)))
            }
            Told::Write(page) => {
                find(disk, page)?;
                let bytes = self.row.first_chunk().unwrap();
                disk.write_page(page, bytes)?;
                Ok(self.tell(Event::Next))
            }
            Told::Flush => {
                disk.sync()?;
                Ok(self.tell(Event::Next))
            }
            Told::Shows(len) => {
                if len > OUT_LEN as u64 {
                    return Err(Fault::LongRow(len));
                }
                rows.show(&self.row[..len as usize])?;
                Ok(self.tell(Event::Next))
            }
            Told::Send(_) => Ok(self.tell(Event::Lost)),
            Told::Done | Told::No(_) => Ok(told),
        }
    }

    // Goes on from an act to the end of the command, on a disk and a place for rows that are lent.
    fn finish_on<D: Disk, R: Rows>(
        &mut self,
        first: Told,
        disk: &mut D,
        rows: &mut R,
    ) -> Result<Answer, Fault>
        ensures ends { IfOk result (λ a. Ends (means D.gave D.took D.kept R.showed) first self.old.memory.items self.old.row.items disk.old rows.old a self.new.memory.items disk.new rows.new) }
        ensures size { D.size disk.new ≡ D.size disk.old }
    {
        let mut told = first;
        // Nothing here tells when a house comes to its end, so the count is the largest that there is.
        for _ in 0..u64::MAX {
            if let Some(answer) = answer(told) {
                return Ok(answer);
            }
            told = self.act_on(told, disk, rows)?;
        }
        Err(Fault::Endless)
    }
}
