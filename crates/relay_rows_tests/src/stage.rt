use crate::calls::{
    HOST, KEYS, MemoryDisks, MemoryNode, Refused, TABLE, after_stop, configuration, create,
    empty_disks, into_disk, open,
};
use crate::course::Course;
use crate::scene::Scene;
use crate::step::Step;
use crate::words::Words;
use relay_disk::{Disks, MemoryDisk};
use relay_node::NodeFault;
use relay_routes::Config;
use relay_trace::Moment;
use std::alloc::Global;

/// What scenarios happen to: a node or its disks, what it is made with, and what comes.
pub struct Stage<'a> {
    node: Option<MemoryNode>,
    disks: Option<MemoryDisks>,
    /// Keys that it is made with, ` ; ` between each two.
    keys: &'a str,
    /// A domain and a hop for each two words.
    table: &'a str,
    pub scene: Scene,
}

impl Drop for Stage<'_> {
    fn drop(self) {
        let Stage {
            node: _node,
            disks: _disks,
            keys: _,
            table: _,
            scene: _scene,
        } = self;
    }
}

impl<'a> Stage<'a> {
    /// Makes a stage with nothing on it, at this time.
    pub fn new(alloc: Global, course: Course, now: Moment) -> Self {
        Stage {
            node: None,
            disks: None,
            keys: KEYS,
            table: TABLE,
            scene: Scene {
                alloc,
                course,
                now,
                record: Vec::new(alloc),
                used: 0,
                came: Vec::new(alloc),
                crowd: Vec::new(alloc),
                is_short: false,
            },
        }
    }

    /// Performs an event. The outcome of it is in the scene.
    ///
    /// `table example.org next.example` and `keys spool_limit = 178` say what a node is made with from then on, `disk`
    /// puts a disk there of which `>` lines are the image, and an empty one after it, `disk second` puts one
    /// in the place of that, `create` makes a node on empty disks, and `open` opens the disks, or what the
    /// node had. `stop` stops the node and leaves its disks as the course of the scenario picks, `stop 0` by
    /// pick 0; `image` tells what the first disk holds, and `image second` the second.
    pub fn perform(&mut self, step: &Step<'a>) {
        let mut words = Words { rest: step.event };
        match words.word() {
            "table" => self.table = words.rest,
            "keys" => self.keys = words.rest,
            "disk" => self.insert(words.word(), step.said.as_slice()),
            "create" => self.start(None),
            "open" => self.open(),
            "image" => self.tell_image(words.word()),
            "stop" => self.stop(words.number_or(self.scene.course.pick)),
            word => self.perform_on_node(step, word, words),
        }
    }

    /// Performs an event of the node.
    fn perform_on_node(&mut self, step: &Step<'_>, word: &str, words: Words<'_>) {
        match &mut self.node {
            Some(node) => self.scene.perform(node, step, word, words),
            None => self.scene.tell("no node"),
        }
    }

    /// Puts a disk with this image there: a second one after the first, and else a first one before an empty
    /// one.
    fn insert(&mut self, which: &str, image: &[u8]) {
        self.halt();
        let alloc = self.scene.alloc;
        let Ok(disk) = MemoryDisk::with_image(alloc, image) else {
            self.scene.is_short = true;
            return;
        };
        if which == "second" {
            self.put_after(disk);
        } else {
            self.disks = Some(Disks {
                first: disk,
                second: MemoryDisk::new(alloc),
            });
        }
    }

    /// Puts a second disk after the first, if there is one.
    fn put_after(&mut self, disk: MemoryDisk) {
        if let Some(disks) = &mut self.disks {
            disks.second = disk;
        }
    }

    /// Opens a node on the disks, if there are any, and else makes one on empty ones.
    fn open(&mut self) {
        self.halt();
        let disks = self.disks.take();
        self.start(disks);
    }

    /// Starts a node on these disks, and on empty ones if there are none.
    fn start(&mut self, disks: Option<MemoryDisks>) {
        match configuration(self.scene.alloc, HOST, self.keys, self.table) {
            Ok(Some(config)) => self.start_with(config, disks),
            Ok(None) => self.scene.tell("no configuration"),
            Err(_) => self.scene.is_short = true,
        }
    }

    /// Starts a node with this configuration. If its disks are refused, they come back, and the reason is told.
    fn start_with(&mut self, config: Config, disks: Option<MemoryDisks>) {
        match made(self.scene.alloc, config, disks) {
            Ok(node) => self.node = Some(node),
            Err(refused) => {
                self.scene.tell_fault(NodeFault::Open(refused.cause));
                self.disks = Some(refused.disk);
            }
        }
    }

    /// Takes the disks of the node, which is gone then.
    fn halt(&mut self) {
        if let Some(node) = self.node.take() {
            self.disks = Some(into_disk(node));
        }
    }

    /// Stops the node, and leaves the disks as that leaves them by this pick.
    fn stop(&mut self, pick: u64) {
        self.halt();
        if let Some(disks) = self.disks.take() {
            self.disks = after_stop(disks, pick);
        }
    }

    /// Tells what a read of the second disk gives, or of the first. The node is gone then.
    fn tell_image(&mut self, which: &str) {
        self.halt();
        match &self.disks {
            Some(disks) if which == "second" => self.scene.tell_octets(disks.second.image()),
            Some(disks) => self.scene.tell_octets(disks.first.image()),
            None => self.scene.tell("no disks"),
        }
    }

    /// Tells what reads of both disks give. The node is gone then.
    pub fn tell_images(&mut self) {
        self.tell_image("first");
        self.tell_image("second");
    }
}

/// Returns a node on these disks, or on empty ones.
fn made(alloc: Global, config: Config, disks: Option<MemoryDisks>) -> Result<MemoryNode, Refused> {
    match disks {
        Some(disks) => open(alloc, config, disks),
        None => create(alloc, config, empty_disks(alloc)),
    }
}
