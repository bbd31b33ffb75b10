// What the tasks of an instance go by.
ghost use Rattle.std.specs.Prelude.{◌≡◌, ◌+◌, ◌++◌, [], IfOk};
ghost use Rattle.swf_meaning.specs.Around.{seen};
ghost use Rattle.swf_stack.specs.Stands.{inward};
ghost use Rattle.swf_stack.specs.Stack.{seen_in};
ghost use Rattle.swf_catalog.specs.Rounds.{round_of};
ghost use Rattle.swf_scene.specs.Setting.{line_of, site_of, setting_line, alone};

use crate::setting::Setting;
use crate::sight::{copy_variables, push_seen};
use crate::site::Site;
use std::alloc::{AllocError, Global};
use swf_catalog::{Round, TaskRef};
use swf_chain::Chain;
use swf_jq_eval::Variable;
use swf_stack::Frame;

/// What a step goes by: the setting of the instance, or of the sub-workflow around; how many branches the instance has, the moment and
/// the loaded documents; the variables around the task that takes it; and how many functions and sub-workflows are around.
#[derive(Drop)]
pub struct Scene<'a> {
    pub setting: Setting,
    pub branches: usize,
    pub site: Site<'a>,
    pub around: Vec<Variable>,
    pub depth: u64,
}

impl<'a> Scene<'a> {
    /// What the workflow of an instance goes by that has so many branches. It copies no values.
    pub fn of(
        alloc: Global,
        setting: &Setting,
        branches: usize,
        site: Site<'a>,
    ) -> Result<Scene<'a>, AllocError>
        ensures line { IfOk result (λ s. line_of s ≡ setting_line setting.now) }
        ensures site { IfOk result (λ s. site_of s ≡ record { number = setting.now.number; branches = branches; now = site.entry.now; documents = site.entry.documents.now.documents }) }
    {
        let Site { now, documents } = site;
        Ok(Scene {
            setting: setting.copy()?,
            branches,
            site: Site { now, documents },
            around: Vec::new(alloc),
            depth: 0,
        })
    }

    /// The same with these variables around. It copies no values.
    fn with_around(&self, around: Vec<Variable>) -> Result<Scene<'a>, AllocError>
        ensures line { IfOk result (λ s. line_of s ≡ record (line_of self.entry.now) { around = around.items }) }
        ensures site { IfOk result (λ s. site_of s ≡ site_of self.entry.now) }
    {
        Ok(Scene {
            setting: self.setting.copy()?,
            branches: self.branches,
            site: Site {
                now: self.site.now,
                documents: self.site.documents,
            },
            around,
            depth: self.depth,
        })
    }

    /// The same once more. It copies no values.
    pub fn copy(&self, alloc: Global) -> Result<Scene<'a>, AllocError>
        ensures line { IfOk result (λ s. line_of s ≡ line_of self.entry.now) }
        ensures site { IfOk result (λ s. site_of s ≡ site_of self.entry.now) }
    {
        self.with_around(copy_variables(alloc, &self.around)?)
    }

    /// What a task goes by that runs with this setting in a function or a sub-workflow of one that goes by this.
    fn called(self, alloc: Global, setting: Setting) -> Result<Scene<'a>, AllocError>
        requires { setting.number ≡ self.setting.number }
        ensures line { IfOk result (λ s. line_of s ≡ record (setting_line setting) { depth = (line_of self.entry).depth + 1 }) }
        ensures site { IfOk result (λ s. site_of s ≡ site_of self.entry) }
    {
        let Some(depth) = self.depth.checked_add(1) else {
            return Err(AllocError);
        };
        Ok(Scene {
            setting,
            branches: self.branches,
            site: self.site,
            around: Vec::new(alloc),
            depth,
        })
    }

    /// What a task goes by that runs in a round of this one.
    fn within(
        mut self,
        alloc: Global,
        task: &TaskRef,
        round: &Round,
    ) -> Result<Scene<'a>, AllocError>
        ensures line { IfOk result (λ s. line_of s ≡ seen (line_of self.entry) task.now (round_of round.now)) }
        ensures site { IfOk result (λ s. site_of s ≡ site_of self.entry) }
    {
        match round {
            Round::Function => {
                let setting = self.setting.copy()?;
                self.called(alloc, setting)
            }
            Round::SubWorkflow(sub) => {
                let setting = self.setting.of_sub(alloc, sub)?;
                self.called(alloc, setting)
            }
            Round::Seq | Round::Each(_) | Round::Try { .. } | Round::Catch(_) => {
                push_seen(alloc, &mut self.around, task, round)?;
                Ok(self)
            }
        }
    }

    /// What a task inside these running tasks goes by, of which the first is the innermost.
    pub fn inside(self, alloc: Global, around: &Chain<Frame>) -> Result<Scene<'a>, AllocError>
        ensures line { IfOk result (λ s. line_of s ≡ seen_in (line_of self.entry) (inward around.now)) }
        ensures site { IfOk result (λ s. site_of s ≡ site_of self.entry) }
    {
        let Some((frame, outer)) = around.split_first() else {
            return Ok(self);
        };
        let scene = self.inside(alloc, outer)?;
        scene.within(alloc, frame.running.task(), &frame.round)
    }

    /// What a task that runs in a round of this one goes by.
    pub fn seen(
        &self,
        alloc: Global,
        task: &TaskRef,
        round: &Round,
    ) -> Result<Scene<'a>, AllocError>
        ensures line { IfOk result (λ s. line_of s ≡ seen (line_of self.entry.now) task.now (round_of round.now)) }
        ensures site { IfOk result (λ s. site_of s ≡ site_of self.entry.now) }
    {
        self.copy(alloc)?.within(alloc, task, round)
    }

    /// The same without the variables around.
    pub fn alone(&self, alloc: Global) -> Result<Scene<'a>, AllocError>
        ensures line { IfOk result (λ s. line_of s ≡ alone (line_of self.entry.now)) }
        ensures site { IfOk result (λ s. site_of s ≡ site_of self.entry.now) }
    {
        self.with_around(Vec::new(alloc))
    }
}
