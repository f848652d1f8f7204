// Writes an order file: the one encoding of what a board and a task table hold.
#![tactic(auto)]

ghost use Rattle.std.specs.Prelude.{◌≡◌, ◌^◌, ◌<◌, ◌≤◌, [], ◌∷◌, length};
ghost use Rattle.board.specs.Boards.{Good};
ghost use Rattle.records.specs.declared.kind.Kind.TheVariants.{Core, Task, End};
ghost use Rattle.records.specs.Wire.{word};
ghost use Rattle.tasks.specs.Table.{rows};
ghost use Rattle.orders.specs.Encoding.{line, each, head_line, core_line, task_line, pair_line, task_pairs, pair_lines, file_of};
ghost use Rattle.order_writer.specs.Writing.{write_why, told, left, Put};
ghost use Rattle.order_writer.specs.Outputs.{Appended, Continued, Few, lines_of, amounts_of};

use board::Board;
use board::fault::{Fault, Refusal};
use records::kind::Kind;
use sections::letter::Sharing;
use tasks::table::TaskTable;

pub mod order;
pub mod output;

use order::Order;
use output::Output;

// Writes the order and answers its length; refused, the output is as it was.
pub fn write<B: Board>(
    board: &B,
    tasks: &TaskTable,
    letter: u8,
    out: &mut [u8],
) -> Result<usize, Fault>
    requires { Good B.build board.now }
    ensures told { result ≡ told (write_why letter (rows tasks.now) (B.build.meaning board.now) (length out.old)) (length (file_of letter (rows tasks.now) (B.build.meaning board.now))) }
    ensures left { out.new ≡ left (write_why letter (rows tasks.now) (B.build.meaning board.now) (length out.old)) (file_of letter (rows tasks.now) (B.build.meaning board.now)) out.old }
{
    Sharing::try_from(letter).map_err(|refusal| refusal.at(0))?;
    if tasks.len() != board.tasks() || board.tasks() == 0 {
        return Err(Refusal::SizesDiffer.at(0));
    }
    // Over no output at all, the same calls count the bytes.
    let order = Order {
        board,
        tasks,
        letter,
    };
    let length = order.put_file(&mut []);
    if out.len() < length {
        return Err(Refusal::OutputTooShort.at(0));
    }
    Ok(order.put_file(out))
}

impl<B: Board> Order<'_, B> {
    // The whole file, and its length.
    fn put_file(&self, out: &mut [u8]) -> usize
        requires good { Good B.build self.now.board.now }
        requires sizes { length (rows self.now.tasks.now) ≡ (B.build.meaning self.now.board.now).tasks }
        ensures { Put out.old out.new 0 result (file_of self.now.letter (rows self.now.tasks.now) (B.build.meaning self.now.board.now)) }
    {
        let mut output = Output {
            out,
            bytes: 0,
            records: 0,
        };
        output.put_order(self);
        output.put_end();
        output.bytes
    }
}

impl Output<'_> {
    // All but the end record.
    fn put_order<B: Board>(&mut self, order: &Order<'_, B>)
        requires good { Good B.build order.now.board.now }
        requires sizes { length (rows order.now.tasks.now) ≡ (B.build.meaning order.now.board.now).tasks }
        requires fresh { Few 0 self.old }
        ensures lines { Continued self.old self.new (lines_of order.now.letter (rows order.now.tasks.now) (B.build.meaning order.now.board.now)) }
        ensures few { Few 2129 self.new }
    {
        self.put_head(order.board, order.letter);
        self.put_cores(order.board);
        self.put_tasks(order.tasks);
        self.put_pairs(order.board, Kind::Need);
        self.put_pairs(order.board, Kind::Slots);
    }

    fn put_head<B: Board>(&mut self, board: &B, letter: u8)
        requires good { Good B.build board.now }
        requires fresh { Few 0 self.old }
        ensures { Continued self.old self.new (head_line letter (B.build.meaning board.now).tasks (B.build.meaning board.now).cores) }
    {
        self.put_record(
            Kind::Head,
            &[letter, board.tasks() as u8, board.cores() as u8],
        );
    }

    fn put_cores<B: Board>(&mut self, board: &B)
        requires good { Good B.build board.now }
        requires few { Few 1 self.old }
        ensures { Continued self.old self.new (each (B.build.meaning board.now).cores (core_line (B.build.meaning board.now).capacity)) }
    {
        for core in 0..board.cores() {
            self.put_core(core as u8, board.capacity(core));
        }
    }

    fn put_core(&mut self, core: u8, capacity: u16)
        requires { Few 3000 self.old }
        ensures { Continued self.old self.new (line Core (core ∷ word capacity) ∷ []) }
    {
        let [low, high] = capacity.to_le_bytes();
        self.put_record(Kind::Core, &[core, low, high]);
    }

    fn put_tasks(&mut self, tasks: &TaskTable)
        requires { Few 17 self.old }
        ensures { Continued self.old self.new (each (length (rows tasks.now)) (task_line (rows tasks.now))) }
    {
        for task in 0..tasks.len() {
            self.put_task(task as u8, tasks.weight(task), tasks.name(task));
        }
    }

    fn put_task(&mut self, task: u8, weight: u8, name: &[u8])
        requires few { Few 3000 self.old }
        requires short { length name.now ≤ 12 }
        ensures { Continued self.old self.new (line Task (task ∷ weight ∷ name.now) ∷ []) }
    {
        let length = 4 + name.len() as u8;
        self.put_bytes(&[length, 0, Kind::Task.into(), 0, task, weight]);
        self.put_bytes(name);
        self.records += 1;
    }

    // The lines of a kind for all pairs, rising by task.
    fn put_pairs<B: Board>(&mut self, board: &B, kind: Kind)
        requires good { Good B.build board.now }
        requires few { Few 1105 self.old }
        ensures { Continued self.old self.new (pair_lines kind (B.build.meaning board.now).tasks (B.build.meaning board.now).cores (amounts_of kind (B.build.meaning board.now))) }
    {
        for task in 0..board.tasks() {
            self.put_task_pairs(board, kind, task);
        }
    }

    // The lines of one task, rising by core.
    fn put_task_pairs<B: Board>(&mut self, board: &B, kind: Kind, task: usize)
        requires good { Good B.build board.now }
        requires known { task < 64 }
        requires few { Few 2500 self.old }
        ensures { Continued self.old self.new (task_pairs kind (B.build.meaning board.now).cores (amounts_of kind (B.build.meaning board.now)) task) }
    {
        for core in 0..board.cores() {
            let amount = amount_of(board, kind, task, core);
            self.put_pair(kind, task as u8, core as u8, amount);
        }
    }

    fn put_pair(&mut self, kind: Kind, task: u8, core: u8, amount: u16)
        requires { Few 3000 self.old }
        ensures { Continued self.old self.new (pair_line kind task core amount) }
    {
        if amount > 0 {
            let [low, high] = amount.to_le_bytes();
            self.put_record(kind, &[task, core, low, high]);
        }
    }

    // The last record tells how many stand before it.
    fn put_end(&mut self)
        requires { Few 3000 self.old }
        ensures { Continued self.old self.new (line End (word self.old.records) ∷ []) }
    {
        let [low, high] = (self.records as u16).to_le_bytes();
        self.put_record(Kind::End, &[low, high]);
    }

    // One record, behind what is written.
    fn put_record(&mut self, kind: Kind, body: &[u8])
        requires few { Few 3000 self.old }
        requires short { length body.now ≤ 14 }
        ensures { Continued self.old self.new (line kind body.now ∷ []) }
    {
        let length = 2 + body.len() as u8;
        self.put_bytes(&[length, 0, kind.into(), 0]);
        self.put_bytes(body);
        self.records += 1;
    }

    // Where the bytes would pass the output's end, only their place is told.
    fn put_bytes(&mut self, bytes: &[u8])
        requires few { self.old.bytes < 2 ^ 32 }
        requires short { length bytes.now ≤ 14 }
        ensures { Appended self.old self.new bytes.now }
    {
        let end = self.bytes + bytes.len();
        if end <= self.out.len() {
            self.out[self.bytes..end].copy_from_slice(bytes);
        }
        self.bytes = end;
    }
}

// What the lines of a kind tell: the slots that are held, or the needs. By the kind and not by a closure, since the lines tell the kind too.
fn amount_of<B: Board>(board: &B, kind: Kind, task: usize, core: usize) -> u16
    requires { Good B.build board.now }
    ensures { result ≡ amounts_of kind (B.build.meaning board.now) task core }
{
    match kind {
        Kind::Slots => board.held(task, core),
        _ => board.need(task, core),
    }
}
