// Calls that fill a list of words.
ghost use Rattle.text.specs.Calls as ask;
ghost use Rattle.script.specs.Sessions.{state, Meets};

use crate::outcome::{Change, Outcome, Unmet, unchanged};
use crate::session::{Mounted, Session};
use answer::Answer;
use image_check::check;
use mapping::map;

const BLANK_WORD: u32 = 0xeeee_eeee;

impl Session {
    pub(crate) fn map(&self, id: &[u8], count: u64) -> Result<Outcome, Unmet>
        ensures stepped { Meets (state self.now) (ask.map id.now count) result }
    {
        let mounted = self.mounted()?;
        let mut lists = self.lists()?;
        let mount = self.over(mounted, &mut lists);
        // the list is printed whole, so it is made however long it is
        let mut words = vec![in self.heap; BLANK_WORD; count as usize]?;
        map(&mount, id, words.as_mut_slice())?;
        Ok(unchanged(Answer::Words(words)))
    }

    pub(crate) fn check(&self, count: u64) -> Result<Outcome, Unmet>
        ensures stepped { Meets (state self.now) (ask.check count) result }
    {
        let mounted = self.mounted()?;
        let mut lists = self.lists()?;
        let mut mount = self.over(mounted, &mut lists);
        let mut words = vec![in self.heap; BLANK_WORD; count as usize]?;
        let totals = check(&mut mount, words.as_mut_slice())?;
        Ok(Outcome {
            answer: Answer::Checked(totals, words),
            change: Change::Mount(Mounted {
                clean: mount.clean,
                ..mounted
            }),
        })
    }
}
