//! The subcommands that show the queue.
use relay_arguments::{Listing, Look};
use relay_files::list;
use relay_queue::{
    Filter, ListForm, MessageForm, QueueFault, StatusForm, print_list, print_message, print_status,
    read_age,
};
use std::alloc::Global;
use std::fs::File;
use std::io::Write;
use std::rt::{Clock, Env, Files};

/// Prints what is asked of the queue.
pub(crate) fn look<R: Files<File = File> + Env + Clock + AllocGlobal, W: Write>(
    alloc: Global,
    rt: &R,
    asked: Look<'_>,
    writer: &mut W,
) -> Result<(), QueueFault> {
    match asked {
        Look::List(file) => list(alloc, rt, file, writer).map_err(QueueFault::Files),
        Look::Listing { file, asked } => list_rows(alloc, rt, file, &asked, writer),
        Look::Show { file, number, raw } => show(alloc, rt, file, number, raw, writer),
        Look::Status { file, prometheus } => status(alloc, rt, file, prometheus, writer),
    }
}

/// Prints the queued recipients that match the options.
fn list_rows<R: Files<File = File> + Env + Clock + AllocGlobal, W: Write>(
    alloc: Global,
    rt: &R,
    path: &str,
    asked: &Listing<'_>,
    writer: &mut W,
) -> Result<(), QueueFault> {
    let age = match asked.older {
        Some(text) => Some(asked_age(text)?),
        None => None,
    };
    let filter = Filter {
        hop: asked.hop.map(|text| text.as_bytes()),
        reverse_path: asked.from.map(|text| text.as_bytes()),
        path: asked.to.map(|text| text.as_bytes()),
        age,
    };
    let form = if asked.json {
        ListForm::Json
    } else {
        ListForm::Table
    };
    print_list(alloc, rt, path, &filter, form, writer)
}

/// Returns the age in an argument, in seconds.
fn asked_age(text: &str) -> Result<u64, QueueFault> {
    match read_age(text) {
        Some(age) => Ok(age),
        None => Err(QueueFault::BadAge),
    }
}

/// Prints a message, or its text only.
fn show<R: Files<File = File> + Env + Clock + AllocGlobal, W: Write>(
    alloc: Global,
    rt: &R,
    path: &str,
    number: u64,
    raw: bool,
    writer: &mut W,
) -> Result<(), QueueFault> {
    let form = if raw {
        MessageForm::Raw
    } else {
        MessageForm::Shown
    };
    print_message(alloc, rt, path, number, form, writer)
}

/// Prints a summary of the queue by next hop.
fn status<R: Files<File = File> + Env + Clock + AllocGlobal, W: Write>(
    alloc: Global,
    rt: &R,
    path: &str,
    prometheus: bool,
    writer: &mut W,
) -> Result<(), QueueFault> {
    let form = if prometheus {
        StatusForm::Metrics
    } else {
        StatusForm::Table
    };
    print_status(alloc, rt, path, form, writer)
}
