//! `open`, `connect`, `read` and `write`, which call the host.

ghost use Rattle.std.specs.Prelude.{◌≡◌, ◌≤◌};
ghost use Rattle.brc_lang.specs.Limits.{read_limit};
ghost use Rattle.brc_lang.specs.declared.module.Instr.TheVariants as instructions;
ghost use Rattle.brc_table.specs.Hands.{IsOf};
ghost use Rattle.brc_work.specs.Fits.{MayDo, HasDone};
ghost use Rattle.brc_work.specs.Performs.{Performs};
ghost use Rattle.brc_work.specs.Totals.{Asked};

use crate::line::{EMPTY, line_of};
use crate::totals::Totals;
use crate::variables::{Variables, name, row_in};
use crate::worker::Worker;
use brc_heap::Hand;
use brc_host::Host;
use brc_lang::{Kind, Mode, Variable};
use brc_list::Lists;
use brc_model::Exit;

impl<'h, T: Drop> Worker<'h, T> {
    /// `open`: opens a path of the host. Room for the file's row is asked before the host is called.
    pub(crate) fn open<H: Host<Res = T>>(
        &self,
        rows: &mut Variables,
        hand: &mut Hand<T>,
        host: &mut H,
        totals: &mut Totals,
        to: Variable,
        path: u8,
        mode: Mode,
        otherwise: u8,
    ) -> Exit
        requires may { MayDo self.now (instructions.Open to path mode otherwise) rows.old hand.old }
        ensures of { IsOf self.now hand.new }
        ensures done { HasDone (instructions.Open to path mode otherwise) result rows.old hand.old rows.new hand.new }
        ensures asked { Asked H.answers H.counts host.old host.new totals.old totals.new
            (λ calls. Performs calls (instructions.Open to path mode otherwise) result rows.old hand.old.view
            rows.new hand.new.view) }
    {
        if !self.heap.room(hand) {
            name(rows, to, None);
            return Exit::Fault;
        }
        let opened = host.open(path, mode);
        match opened {
            Ok(file) => {
                self.bear(rows, hand, to, Kind::File, 0, Some(file));
                Exit::Success
            }
            Err(_) => {
                totals.count_host_fault();
                name(rows, to, None);
                Exit::Fault
            }
        }
    }

    /// `connect`: connects to a peer of the host. Room for the socket's row is asked before the host is called.
    pub(crate) fn connect<H: Host<Res = T>>(
        &self,
        rows: &mut Variables,
        hand: &mut Hand<T>,
        host: &mut H,
        totals: &mut Totals,
        to: Variable,
        peer: u8,
        otherwise: u8,
    ) -> Exit
        requires may { MayDo self.now (instructions.Connect to peer otherwise) rows.old hand.old }
        ensures of { IsOf self.now hand.new }
        ensures done { HasDone (instructions.Connect to peer otherwise) result rows.old hand.old rows.new hand.new }
        ensures asked { Asked H.answers H.counts host.old host.new totals.old totals.new
            (λ calls. Performs calls (instructions.Connect to peer otherwise) result rows.old hand.old.view
            rows.new hand.new.view) }
    {
        if !self.heap.room(hand) {
            name(rows, to, None);
            return Exit::Fault;
        }
        let connected = host.connect(peer);
        match connected {
            Ok(connection) => {
                self.bear(rows, hand, to, Kind::Sock, 0, Some(connection));
                Exit::Success
            }
            Err(_) => {
                totals.count_host_fault();
                name(rows, to, None);
                Exit::Fault
            }
        }
    }

    /// `read`: reads from a file or a peer, and makes a number of how many bytes that were. Room for the number's row
    /// is asked before the host is called.
    pub(crate) fn read<H: Host<Res = T>>(
        &self,
        rows: &mut Variables,
        hand: &mut Hand<T>,
        host: &mut H,
        totals: &mut Totals,
        to: Variable,
        file: Variable,
        most: u16,
        otherwise: u8,
    ) -> Exit
        requires may { MayDo self.now (instructions.Read to file most otherwise) rows.old hand.old }
        requires most { most ≤ read_limit }
        ensures of { IsOf self.now hand.new }
        ensures done { HasDone (instructions.Read to file most otherwise) result rows.old hand.old rows.new hand.new }
        ensures asked { Asked H.answers H.counts host.old host.new totals.old totals.new
            (λ calls. Performs calls (instructions.Read to file most otherwise) result rows.old hand.old.view
            rows.new hand.new.view) }
    {
        if !self.heap.room(hand) {
            name(rows, to, None);
            return Exit::Fault;
        }
        let lists = Lists::new(self.heap);
        let row = row_in(rows, file);
        let mut resource = lists.lend(hand, row);
        let got = host.read(&mut resource, most);
        lists.give_back(hand, row, resource);
        match got {
            Ok(count) => {
                self.bear(rows, hand, to, Kind::Num, u32::from(count), None);
                Exit::Success
            }
            Err(_) => {
                totals.count_host_fault();
                name(rows, to, None);
                Exit::Fault
            }
        }
    }

    /// `write`: writes a number's digits and a line feed to a file or a peer.
    pub(crate) fn write<H: Host<Res = T>>(
        &self,
        rows: &Variables,
        hand: &mut Hand<T>,
        host: &mut H,
        totals: &mut Totals,
        file: Variable,
        number: Variable,
        otherwise: u8,
    ) -> Exit
        requires may { MayDo self.now (instructions.Write file number otherwise) rows.now hand.old }
        ensures of { IsOf self.now hand.new }
        ensures done { HasDone (instructions.Write file number otherwise) result rows.now hand.old rows.now hand.new }
        ensures asked { Asked H.answers H.counts host.old host.new totals.old totals.new
            (λ calls. Performs calls (instructions.Write file number otherwise) result rows.now hand.old.view
            rows.now hand.new.view) }
    {
        let lists = Lists::new(self.heap);
        let mut line = EMPTY;
        let object = row_in(rows, number);
        let value = self.heap.arg_of(hand, object);
        let text = line_of(&mut line, value);
        let row = row_in(rows, file);
        let mut resource = lists.lend(hand, row);
        let written = host.write(&mut resource, text);
        lists.give_back(hand, row, resource);
        match written {
            Ok(_) => Exit::Success,
            Err(_) => {
                totals.count_host_fault();
                Exit::Fault
            }
        }
    }
}
