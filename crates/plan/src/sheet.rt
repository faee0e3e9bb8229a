// A plan as it was read: its form and counts, and its numbers, each kind in an array of its own. What goes by an action's place in
// plan order ends in `_at`, what goes by a job's number in `_of`.
ghost use Rattle.std.specs.Prelude.{◌≡◌, ◌<◌};
ghost use Rattle.plan.specs.Sheet.{Blank, child_at, target_at, frame_of, first_of, parent_of, spawn_of, job_at, cost_at};
ghost use Rattle.plan.specs.Sheet.{with_action, with_frame, with_first, with_spawner, with_counts};

// Of the 2,048 actions the children and the targets, each a number plus 1, or 0 for none, the jobs and the costs; of the 256 jobs the
// frames, the places of first actions, that of the end with them, the parents, and the positions of the spawns, plus 1, or 0 where
// none is noted. The arrays have a fixed size (no heap), and a new plan is all zeros.
// The form is a number and no enum: plans, tables and schedules have it as a number, and `table_to_plan`, `encode`, `schedule_length` and
// `write_schedule` promise an answer for others than 1 and 2 too. What differs by form tests it where it
// differs: there are two forms, and a step that is stored would be no plainer.
// A child, a target and a spawn are numbers plus 1 and no Options: children and targets are the numbers of the open table and of the bytes,
// and writers, tables and pairs hand them on as they stand; a spawn is kept as a target is, so that the later has the larger number.
// Each kind has an array of its own and no struct an action: children or targets alone are walked (`note` in src/rules.rt).
#[derive(Clone, Copy, PartialEq, Eq)]
pub struct Sheet {
    pub form: u32,
    pub jobs: usize,
    pub actions: usize,
    pub children: [u16; 2048],
    pub targets: [u16; 2048],
    pub owners: [u16; 2048],
    pub costs: [u16; 2048],
    pub frames: [u16; 256],
    pub firsts: [u16; 257],
    pub parents: [u16; 256],
    pub spawns: [u16; 256],
}

impl Sheet {
    // No plan yet.
    pub fn blank() -> Sheet
        ensures { Blank result }
    {
        Sheet {
            form: 0,
            jobs: 0,
            actions: 0,
            children: [0; 2048],
            targets: [0; 2048],
            owners: [0; 2048],
            costs: [0; 2048],
            frames: [0; 256],
            firsts: [0; 257],
            parents: [0; 256],
            spawns: [0; 256],
        }
    }

    // One accessor for each array, since each promises its own word of the definitions.
    // The number of the job that the action at place k spawns, plus 1, or 0.
    pub fn child_at(&self, k: usize) -> usize
        requires { k < 2048 }
        ensures { (result ≡ child_at self.now k) × (result < 65536) }
    {
        usize::from(self.children[k])
    }

    // The position in its job's parent that the action at place k sends its join to, plus 1, or 0.
    pub fn target_at(&self, k: usize) -> usize
        requires { k < 2048 }
        ensures { (result ≡ target_at self.now k) × (result < 65536) }
    {
        usize::from(self.targets[k])
    }

    // The job of the action at place k.
    pub fn job_at(&self, k: usize) -> usize
        requires { k < 2048 }
        ensures { (result ≡ job_at self.now k) × (result < 65536) }
    {
        usize::from(self.owners[k])
    }

    // The cost of the action at place k.
    pub fn cost_at(&self, k: usize) -> usize
        requires { k < 2048 }
        ensures { (result ≡ cost_at self.now k) × (result < 65536) }
    {
        usize::from(self.costs[k])
    }

    // The weight of job j's frame.
    pub fn frame_of(&self, j: usize) -> u32
        requires { j < 256 }
        ensures { (result ≡ frame_of self.now j) × (result < 65536) }
    {
        u32::from(self.frames[j])
    }

    // The place of job j's first action, or that of the end where j is the number of jobs.
    pub fn first_of(&self, j: usize) -> usize
        requires { j < 257 }
        ensures { (result ≡ first_of self.now j) × (result < 65536) }
    {
        usize::from(self.firsts[j])
    }

    // The job that spawns job j, where that is noted.
    pub fn parent_of(&self, j: usize) -> usize
        requires { j < 256 }
        ensures { (result ≡ parent_of self.now j) × (result < 65536) }
    {
        usize::from(self.parents[j])
    }

    // The position of job j's spawn in its parent, plus 1, or 0 where none is noted.
    pub fn spawn_of(&self, j: usize) -> usize
        requires { j < 256 }
        ensures { (result ≡ spawn_of self.now j) × (result < 65536) }
    {
        usize::from(self.spawns[j])
    }

    // The action at place k is one of job j, with its child and its target, each plus 1 or 0, and its cost.
    pub fn set_action(&mut self, k: usize, j: usize, child: u16, target: u16, cost: u16)
        requires { (k < 2048) × (j < 256) }
        ensures { self.new ≡ with_action self.old k j child target cost }
    {
        self.children[k] = child;
        self.targets[k] = target;
        self.owners[k] = j as u16;
        self.costs[k] = cost;
    }

    // The weight of job j's frame.
    pub fn set_frame(&mut self, j: usize, weight: u16)
        requires { j < 256 }
        ensures { self.new ≡ with_frame self.old j weight }
    {
        self.frames[j] = weight;
    }

    // The place of job j's first action, or that of the end.
    pub fn set_first(&mut self, j: usize, k: usize)
        requires { (j < 257) × (k < 65536) }
        ensures { self.new ≡ with_first self.old j k }
    {
        self.firsts[j] = k as u16;
    }

    // Notes that job j is spawned by job q, at a position that is given plus 1.
    pub fn set_spawner(&mut self, j: usize, q: usize, position: usize)
        requires { (j < 256) × (q < 256) × (position < 65536) }
        ensures { self.new ≡ with_spawner self.old j q position }
    {
        self.parents[j] = q as u16;
        self.spawns[j] = position as u16;
    }

    // The plan is of this form, with so many jobs and actions.
    pub fn set_counts(&mut self, form: u32, jobs: usize, actions: usize)
        ensures { self.new ≡ with_counts self.old form jobs actions }
    {
        self.form = form;
        self.jobs = jobs;
        self.actions = actions;
    }
}
