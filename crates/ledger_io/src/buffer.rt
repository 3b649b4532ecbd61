//! The room for bytes that were read from a source and not yet given.

ghost use Rattle.std.specs.Prelude.{◌≡◌, ℕ, ◌+◌, ◌-◌, ◌^◌, ◌<◌, ◌≤◌, List, [], length, take, drop, vec_len, None, OnOk};
ghost use Rattle.ledger_io.specs.Reading.{faults_next};
ghost use Rattle.ledger_io.specs.Steps.{Fetches, gain};

use crate::{LineErr, Source};
use std::alloc::{AllocError, Global};
use std::marker::Model;

/// Bytes that were read and not yet taken, in room that is used again.
#[derive(Drop)]
pub struct Buffer {
    bytes: Vec<u8>,
    start: usize,
    filled: usize,
}

impl Model for Buffer {
    ghost Value = { List ℕ };

    ghost view = { λ b. drop b.start (take b.filled b.bytes.items) };

    ghost invariant = { λ b. (b.start ≤ b.filled) × (b.filled ≤ length b.bytes.items) };
}

impl Buffer {
    pub fn new(alloc: Global) -> Self
        ensures { result ≡ [] }
    {
        Buffer {
            bytes: Vec::new(alloc),
            start: 0,
            filled: 0,
        }
    }

    pub fn as_slice(&self) -> &[u8]
        ensures { result.now ≡ self.now }
    {
        &self.bytes[self.start..self.filled]
    }

    /// Drops bytes from the front, which were given away.
    pub fn consume(&mut self, count: usize)
        requires { count ≤ length self.old }
        ensures { self.new ≡ drop count self.old }
    {
        self.start += count;
    }

    // Makes the room before the bytes room behind them.
    fn move_to_front(&mut self)
        ensures { self.new ≡ self.old }
    {
        if self.start > 0 {
            self.bytes.copy_within(self.start..self.filled, 0);
            self.filled -= self.start;
            self.start = 0;
        }
    }

    /// Reads at most `most` bytes behind those that it holds, in one call, and answers how many.
    pub fn fetch<S: Source>(&mut self, source: &mut S, most: usize) -> Result<usize, LineErr>
        requires { most < 2 ^ 63 }
        ensures fetches { Fetches (S.state source.old) (S.state source.new)
            self.old self.new most result }
        ensures counts { (S.state source.new).faults
            ≡ faults_next result None (S.state source.old).faults }
    {
        self.move_to_front();
        let count = read_at(source, &mut self.bytes, self.filled, most)?;
        self.filled += count;
        Ok(count)
    }
}

// Reads at most `most` bytes to the place `at`, in one call, and answers how many.
fn read_at<S: Source>(
    source: &mut S,
    bytes: &mut Vec<u8>,
    at: usize,
    most: usize,
) -> Result<usize, LineErr>
    requires within { at ≤ vec_len bytes.old }
    requires few { most < 2 ^ 63 }
    ensures fetches { Fetches (S.state source.old) (S.state source.new) (take at bytes.old.items)
        (take (at + gain result) bytes.new.items) most result }
    ensures len { at + gain result ≤ length bytes.new.items }
    ensures counts { (S.state source.new).faults
        ≡ faults_next result None (S.state source.old).faults }
{
    lengthen(bytes, at + most)?;
    Ok(source.read(&mut bytes.as_mut_slice()[at..at + most])?)
}

// Makes the bytes at least so many.
fn lengthen(bytes: &mut Vec<u8>, len: usize) -> Result<(), AllocError>
    ensures kept { take (vec_len bytes.old) bytes.new.items ≡ bytes.old.items }
    ensures len { OnOk result (len ≤ vec_len bytes.new) }
{
    if bytes.len() < len {
        bytes.resize(len, 0)?;
    }
    Ok(())
}
